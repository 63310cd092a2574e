//! Laws of a tablet's store: what writes, compaction, ranges, frozen sets and restored rows do to
//! what is read. No function here does anything: each contract states laws about the definitions,
//! and the lemmas behind them, in `proofs/`, are cited by the crates above.
#![tactic(auto)]

ghost use Rattle.std.specs.Prelude.{◌≡◌, ◌≤◌, ◌<◌, ◌+◌, ℕ, Bool, true, false, List, Option, fold};
ghost use Rattle.row_values.specs.Codes.{code_of};
ghost use Rattle.row_values.specs.Rows.{absent_row};
ghost use Rattle.row_values.specs.declared.rows.KeyedRow.{KeyedRow};
ghost use Rattle.row_values.specs.declared.rows.Row.{Row};
ghost use Rattle.row_values.specs.declared.value.Item.{Item};
ghost use Rattle.row_values.specs.Ids.{Id};
ghost use Rattle.row_values.specs.Elements.{in_order};
ghost use Rattle.row_values.specs.Store.{AreRows, InOrder, of_key, Below, Version, frozen, kept, of_rows, part_of, precedes, present, put_version, read_of, read_step, rows_at, written};
ghost use Rattle.row_values.specs.Ranges.{in_range};
ghost use Rattle.law_store.specs.Sorted.{EachItemKey, EachKey, OnceOld, Rising, Sorted, StampedAt, item_step};

/// A write changes what is read of its keys from its stamp on, item by item, and nothing else. The
/// order of a store's versions is kept by writes whose stamp is not before those that it has.
pub fn writes_are_read()
    ensures one { (versions : List Version) (version : Version) (key : List ℕ) (x : ℕ) → Sorted versions → read_of (put_version version versions) key x ≡ read_step key x (read_of versions key x) version }
    ensures before { (versions : List Version) (stamp : ℕ) (items : List Item) (key : List ℕ) (x : ℕ) → Sorted versions → Below (stamp + 1) versions → x < stamp → read_of (written versions stamp items) key x ≡ read_of versions key x }
    ensures after { (versions : List Version) (stamp : ℕ) (items : List Item) (key : List ℕ) (x : ℕ) → Sorted versions → Below (stamp + 1) versions → stamp ≤ x → read_of (written versions stamp items) key x ≡ fold (item_step key) (read_of versions key x) items }
    ensures sorted { (versions : List Version) (stamp : ℕ) (items : List Item) → Sorted versions → Below (stamp + 1) versions → Sorted (written versions stamp items) }
    ensures below { (versions : List Version) (stamp n : ℕ) (items : List Item) → stamp < n → Below n versions → Below n (written versions stamp items) }
{}

/// Compaction changes no read at or after its cutoff. It leaves one version of a key at most at or
/// before the cutoff, so a second one changes nothing.
pub fn compaction_keeps_reads()
    ensures reads { (versions : List Version) (cutoff : ℕ) (key : List ℕ) (x : ℕ) → Sorted versions → cutoff ≤ x → read_of (kept versions cutoff) key x ≡ read_of versions key x }
    ensures once { (versions : List Version) (cutoff : ℕ) → OnceOld cutoff (kept versions cutoff) }
    ensures again { (versions : List Version) (cutoff : ℕ) → Sorted versions → kept (kept versions cutoff) cutoff ≡ kept versions cutoff }
    ensures sorted { (versions : List Version) (cutoff : ℕ) → Sorted versions → Sorted (kept versions cutoff) }
    ensures below { (versions : List Version) (cutoff n : ℕ) → Below n versions → Below n (kept versions cutoff) }
{}

/// The versions of a range of codes read as all do within the range, and as nothing outside it. The
/// versions that are frozen at a stamp read as all do up to it.
pub fn parts_keep_reads()
    ensures inside { (versions : List Version) (low high : ℕ) (key : List ℕ) (x : ℕ) → in_range low high (code_of key) ≡ true → read_of (part_of low high versions) key x ≡ read_of versions key x }
    ensures outside { (versions : List Version) (low high : ℕ) (key : List ℕ) (x : ℕ) → in_range low high (code_of key) ≡ false → read_of (part_of low high versions) key x ≡ absent_row }
    ensures frozen { (versions : List Version) (stamp : ℕ) (key : List ℕ) (x : ℕ) → x ≤ stamp → read_of (frozen stamp versions) key x ≡ read_of versions key x }
    ensures sorted_part { (versions : List Version) (low high : ℕ) → Sorted versions → Sorted (part_of low high versions) }
    ensures sorted_frozen { (versions : List Version) (stamp : ℕ) → Sorted versions → Sorted (frozen stamp versions) }
{}

/// What each key of a store passes is passed by its keys after, and a part by range has its keys in the range.
pub fn keys_stay()
    ensures written { (versions : List Version) (stamp : ℕ) (items : List Item) (test : List ℕ → Bool) → EachItemKey test items → EachKey test versions → EachKey test (written versions stamp items) }
    ensures kept { (versions : List Version) (cutoff : ℕ) (test : List ℕ → Bool) → EachKey test versions → EachKey test (kept versions cutoff) }
    ensures frozen { (versions : List Version) (stamp : ℕ) (test : List ℕ → Bool) → EachKey test versions → EachKey test (frozen stamp versions) }
    ensures part { (versions : List Version) (low high : ℕ) → EachKey (λ key. in_range low high (code_of key)) (part_of low high versions) }
    ensures restored { (versions : List Version) (to stamp : ℕ) (test : List ℕ → Bool) → EachKey test versions → EachKey test (of_rows (rows_at versions to) stamp) }
{}

/// The rows at a time are listed by rising key, each key that has a row once, with its row.
pub fn rows_are_listed()
    ensures each { (versions : List Version) (x : ℕ) (key : List ℕ) → of_key key (rows_at versions x) ≡ present key (read_of versions key x) }
    ensures rising { (versions : List Version) (x : ℕ) → Sorted versions → Rising (rows_at versions x) }
{}

/// Versions made of the rows at a time read from their stamp on as the store did at that time, and
/// before it as nothing. They give those rows again, and compaction leaves them as they are.
pub fn restored_rows_are_read()
    ensures after { (versions : List Version) (to stamp : ℕ) (key : List ℕ) (x : ℕ) → stamp ≤ x → read_of (of_rows (rows_at versions to) stamp) key x ≡ read_of versions key to }
    ensures before { (versions : List Version) (to stamp : ℕ) (key : List ℕ) (x : ℕ) → x < stamp → read_of (of_rows (rows_at versions to) stamp) key x ≡ absent_row }
    ensures rows { (versions : List Version) (to stamp x : ℕ) → Sorted versions → stamp ≤ x → rows_at (of_rows (rows_at versions to) stamp) x ≡ rows_at versions to }
    ensures kept { (versions : List Version) (to stamp cutoff : ℕ) → Sorted versions → kept (of_rows (rows_at versions to) stamp) cutoff ≡ of_rows (rows_at versions to) stamp }
    ensures sorted { (versions : List Version) (to stamp : ℕ) → Sorted versions → Sorted (of_rows (rows_at versions to) stamp) }
    ensures are_rows { (versions : List Version) (low high stamp to : ℕ) (row : List ℕ → Row) → Sorted versions → EachKey (λ key. in_range low high (code_of key)) versions → ((key : List ℕ) → in_range low high (code_of key) ≡ true → read_of versions key to ≡ row key) → AreRows (of_rows (rows_at versions to) stamp) low high stamp row }
    ensures stamped { (rows : List KeyedRow) (stamp : ℕ) → StampedAt stamp (of_rows rows stamp) }
{}

/// Rows that are put in order by key are in order, and those of one key stay in the order in which they
/// stood.
pub fn rows_are_ordered()
    ensures ordered { (rows : List KeyedRow) → InOrder (in_order (λ r s. precedes r.key s.key) rows) }
    ensures stable { (rows : List KeyedRow) (key : List ℕ) → of_key key (in_order (λ r s. precedes r.key s.key) rows) ≡ of_key key rows }
{}
