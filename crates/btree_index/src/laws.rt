ghost use Rattle.std.specs.Prelude.{ℕ, ◌≡◌, List};
ghost use Rattle.page_store.specs.Image.{Image};
ghost use Rattle.btree_index.specs.Keys.{Key};
ghost use Rattle.btree_index.specs.Trees.{TreeList};

/// The law that the pages below a root hold the tree of at most one list.
pub fn trees_have_one_list()
    ensures one { (pages : ℕ → Image) (root : ℕ) (xs ys : List (Key × List ℕ)) →
        TreeList pages root xs → TreeList pages root ys → xs ≡ ys }
{}
