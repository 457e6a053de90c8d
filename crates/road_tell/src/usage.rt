//! The usage of the commands.

use std::fmt::{self, Display, Formatter};

/// The program's version.
pub const VERSION: &str = "0.1.0";

/// The toolchain and the logic with which the program is proved.
pub const KIT: &str = "rattle-kit-13f logic dac8208d650f15bf";

/// A command: its name and arguments as they are typed, and what the command does.
#[derive(Clone, Copy)]
pub struct Usage {
    /// The name of the command, and a name for each argument. The last arguments may be in brackets; these may be
    /// left out.
    pub words: &'static str,
    /// What the command does.
    pub does: &'static str,
    /// The text that `help` adds for this command: ranges, and recommendations.
    pub more: &'static str,
}

/// The text of `help publish` about its nine arguments.
const PUBLISHING: &str = "
      VERSION  above that of the previous map: clients refuse versions below a minimum
      SEED     0, except for shuffled
      FAN      2 to 32, the number of children of a tree node; 2 gives the shortest replies
      dij      0 0 0 for P1 P2 P3; no hints, and replies have all nodes nearer than T
      full     0 0 0; at most 1024 nodes, and all their distances are signed
      ldm      1 to 64 landmarks, 1 to 16 bits, a threshold to 65534
      hyp      1 to 1024 columns, 1 to 1024 rows, 0; at most 2048 border nodes
      All are whole numbers, VERSION and SEED from 0 to 18446744073709551615.
      In doubt: publish ROADS ldm VERSION hilbert 0 2 16 12 0";

/// The commands.
pub const USAGES: [Usage; 17] = [
    Usage {
        words: "route ROADS S T",
        does: "writes the length and the nodes of a shortest route from S to T",
        more: "",
    },
    Usage {
        words: "root ROADS FAN",
        does: "writes the number of nodes, and the root of the tree over their leaves",
        more: "",
    },
    Usage {
        words: "dimacs GRAPH PLACES",
        does: "writes the road file of a graph and its coordinates, two files of the\n      DIMACS shortest path challenge",
        more: "",
    },
    Usage {
        words: "key SECRET KIND",
        does: "makes the owner's key, h5 or h10, in owner.desk and writes its public key",
        more: "",
    },
    Usage {
        words: "succeed SECRET KIND",
        does: "makes the owner's next key, signs it with the last one-time key of the current one,\n      and writes its public key",
        more: "",
    },
    Usage {
        words: "links",
        does: "writes the chain file that leads from the owner's first key to the current one",
        more: "",
    },
    Usage {
        words: "desk",
        does: "writes the current public key of owner.desk, how many publications it can still\n      sign, and how many it can sign in all",
        more: "",
    },
    Usage {
        words: "publish ROADS METHOD VERSION ORDER SEED FAN P1 P2 P3",
        does: "signs the map with its hints and writes the publication; METHOD is dij, full,\n      ldm (P1 landmarks, P2 bits, P3 the threshold) or hyp (P1 columns, P2 rows),\n      ORDER is id, breadth, depth, hilbert, kd or shuffled (by SEED)",
        more: PUBLISHING,
    },
    Usage {
        words: "prove PUB S T",
        does: "writes a reply that shows a shortest route from S to T, or that there is none",
        more: "",
    },
    Usage {
        words: "serve PUB [PUBKEY [CHAIN]]",
        does: "answers the frames of standard input over a publication and over later installed\n      ones, for up to 16 sessions; with PUBKEY only over those that are signed under it\n      or along CHAIN, and range queries too",
        more: "",
    },
    Usage {
        words: "check PUBKEY REPLY S T LEAST [CHAIN]",
        does: "checks a reply and writes the verdict of a client: the route or that there is none,\n      in a map of version LEAST or later, or why the reply is refused; CHAIN is the\n      chain file of an owner with later keys",
        more: "",
    },
    Usage {
        words: "audit PUBKEY PUB REPLY S T [CHAIN]",
        does: "judges a reply by owner.desk and a publication, and writes the evidence if it is false",
        more: "",
    },
    Usage {
        words: "reach PUB S RADIUS",
        does: "writes a reply that shows which nodes lie within RADIUS of S",
        more: "",
    },
    Usage {
        words: "check-reach PUBKEY REPLY S RADIUS LEAST [CHAIN]",
        does: "checks such a reply and writes the verdict of a client: the nodes within RADIUS,\n      in a map of version LEAST or later, or why the reply is refused",
        more: "",
    },
    Usage {
        words: "audit-reach PUBKEY PUB REPLY S RADIUS [CHAIN]",
        does: "judges such a reply by owner.desk and a publication, and writes the evidence if it is\n      false",
        more: "",
    },
    Usage {
        words: "reduce PUBKEY TEXT SIGNATURE",
        does: "reduces a signature on a text that the desk never signed, by owner.desk, and writes\n      the result: a collision of SHA-256, or a value that the desk never released",
        more: "",
    },
    Usage {
        words: "survey WIDTH SEED METHOD QUERIES",
        does: "signs a grid with a key in memory, answers random queries over it, checks each reply,\n      and writes the number of accepted replies, their total length, and a digest",
        more: "",
    },
];

impl Display for Usage {
    fn fmt<W: fmt::Write>(&self, f: &mut Formatter<W>) -> fmt::Result {
        write!(f, "  {}\n      {}", self.words, self.does)
    }
}

impl Usage {
    /// Returns the number of arguments at the end that may be left out.
    pub fn optional(&self) -> usize {
        self.words
            .split(' ')
            .filter(|word| word.starts_with('['))
            .count()
    }
}

/// The table of all commands.
#[derive(Clone, Copy)]
pub struct Commands;

impl Display for Commands {
    fn fmt<W: fmt::Write>(&self, f: &mut Formatter<W>) -> fmt::Result {
        f.write_str("commands:")?;
        for usage in &USAGES {
            write!(f, "\n{usage}")?;
        }
        Ok(())
    }
}

/// Returns the command with this name.
pub fn usage_of(name: &str) -> Option<&'static Usage> {
    for usage in &USAGES {
        if usage.words.split(' ').next() == Some(name) {
            return Some(usage);
        }
    }
    None
}
