// Laws on the sights of an image.
ghost use Rattle.std.specs.Prelude.{◌≡◌, List, ℕ};
ghost use Rattle.desk_sight.specs.Areas.{IsStrange};
ghost use Rattle.desk_sight.specs.Sights.{IsSight, IsUntold};
ghost use Rattle.desk_sight.specs.declared.sight.Sight.{Sight};
ghost use Rattle.desk_sight.specs.declared.strange.Strange.{Strange};

/// An image has at most one sight. If it has one, nothing in it is strange, and a key can be recognised.
pub fn an_image_has_one_sight()
    ensures one { (image : List ℕ) (sight other : Sight) → IsSight image sight → IsSight image other →
        sight ≡ other }
    ensures plain { (image : List ℕ) (sight : Sight) (strange : Strange) → IsSight image sight →
        IsStrange image strange → ⊥ }
    ensures told { (image : List ℕ) (sight : Sight) → IsSight image sight → IsUntold image → ⊥ }
{}
