ghost use Rattle.std.specs.Prelude.{ℕ, ◌≡◌, [], ◌++◌, List, length};
ghost use Rattle.std.specs.List.{AllByRecursion};
ghost use Rattle.std.specs.Ordering.{nat_cmp};
ghost use Rattle.std.specs.Cmp.Lexicographic.{slice_cmp};
ghost use Rattle.cdb_values.specs.Good.{bytes_of_key, bytes_of_row};
ghost use Rattle.cdb_values.specs.Order.{value_order};
ghost use Rattle.cdb_values.specs.declared.values.Value.{Value};
ghost use Rattle.key_code.specs.Codes.{key_code, row_code, IsInRange, HasRowCode};

/// The law that byte order of key codes is the order of the lists of values, in both directions.
pub fn key_codes_keep_order()
    ensures order { (xs ys : List Value) → AllByRecursion IsInRange xs → AllByRecursion IsInRange ys →
        slice_cmp nat_cmp (key_code xs) (key_code ys) ≡ slice_cmp value_order xs ys }
{}

/// The law that a key's code tells its values and what is behind it, once their number is known: so a code begins no
/// other code of as many values.
pub fn key_codes_tell()
    ensures tells { (xs ys : List Value) (ps qs : List ℕ) → AllByRecursion IsInRange xs → AllByRecursion IsInRange ys →
        length xs ≡ length ys → key_code xs ++ ps ≡ key_code ys ++ qs → (xs ≡ ys) × (ps ≡ qs) }
    ensures begins_no_other { (xs ys : List Value) (ps : List ℕ) → AllByRecursion IsInRange xs → AllByRecursion IsInRange ys →
        length xs ≡ length ys → key_code xs ++ ps ≡ key_code ys → (xs ≡ ys) × (ps ≡ []) }
{}

/// The law that a row's code tells its values and what is behind it, once their number is known: so a code begins no
/// other code of as many values.
pub fn row_codes_tell()
    ensures tells { (xs ys : List Value) (ps qs : List ℕ) → AllByRecursion HasRowCode xs → AllByRecursion HasRowCode ys →
        length xs ≡ length ys → row_code xs ++ ps ≡ row_code ys ++ qs → (xs ≡ ys) × (ps ≡ qs) }
    ensures begins_no_other { (xs ys : List Value) (ps : List ℕ) → AllByRecursion HasRowCode xs → AllByRecursion HasRowCode ys →
        length xs ≡ length ys → row_code xs ++ ps ≡ row_code ys → (xs ≡ ys) × (ps ≡ []) }
{}

/// The law that the sizes of a good state are the lengths of the codes.
pub fn codes_have_their_sizes()
    ensures keys { (values : List Value) → length (key_code values) ≡ bytes_of_key values }
    ensures rows { (values : List Value) → length (row_code values) ≡ bytes_of_row values }
{}
