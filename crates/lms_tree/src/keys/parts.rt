//! The contents of a private key, which are needed to reduce a forgery to the hash. Only the owner may have them.
ghost use Rattle.std.specs.Prelude.{◌≡◌, ◌*◌, ◌^◌, ◌<◌, ◌≤◌, true};
ghost use Rattle.lms_tree.specs.Nodes.{IsNode};
ghost use Rattle.lms_tree.specs.Signatures.{height_of, is_kind};

use crate::Key;
use octet_text::Digest32;

impl Key {
    /// Returns the identifier `I`, with which the key's hashed texts begin (§ 5.1).
    pub fn i(&self) -> [u8; 16]
        ensures { result ≡ self.now.i }
    {
        self.i
    }

    /// Returns `SEED`, from which the one-time keys are derived (Appendix A).
    pub fn seed(&self) -> [u8; 32]
        ensures { result ≡ self.now.seed }
    {
        self.seed
    }

    /// Returns the height of the tree, 5 or 10.
    pub fn height(&self) -> u32
        ensures height { result ≡ height_of self.now.kind }
        ensures known { is_kind self.now.kind ≡ true }
    {
        self.height
    }

    /// Returns the digest `T[r]` of a node of the tree. Node 1 is the root, and the leaves are numbered from
    /// `slots()` on (§ 5.3).
    pub fn node(&self, r: u32) -> Digest32
        requires low { 1 ≤ r }
        requires high { r < 2 * 2 ^ height_of self.now.kind }
        ensures { IsNode self.now r result }
    {
        self.nodes[r as usize]
    }
}
