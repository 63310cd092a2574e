//! The words of items, between slashes.

ghost use Rattle.std.specs.Prelude.{◌≡◌, ◌<◌, ◌∷◌, [], length, MatchOption};
ghost use Rattle.script_places.specs.Groups.{is_slash, groups, item_fits, items_fit};

use row_values::Bytes;

#[tactic(auto, unfolding(crate::specs::Groups::is_slash))]
fn is_slash(word: &[u8]) -> bool
    ensures exact { result ≡ is_slash word.now }
{
    word == b"/".as_slice()
}

/// The words before the first slash, and those behind it, if there is one.
pub fn first_group(words: &[Bytes]) -> (&[Bytes], Option<&[Bytes]>)
    ensures group { MatchOption result.1 (groups words.now ≡ result.0.now ∷ [])
        (λ rest. (groups words.now ≡ result.0.now ∷ groups rest.now) × (length rest.now < length words.now)) }
{
    for i in 0..words.len() {
        if is_slash(words[i].as_slice()) {
            return (&words[..i], Some(&words[i + 1..]));
        }
    }
    (words, None)
}

fn item_fits(group: &[Bytes]) -> bool
    ensures exact { result ≡ item_fits group.now }
{
    2 <= group.len() && group.len() <= 17
}

/// Whether there are at most 64 items, each with a key and one word more or up to 16.
pub fn items_fit(words: &[Bytes]) -> bool
    ensures exact { result ≡ items_fit (groups words.now) }
{
    let mut rest = words;
    let mut count: usize = 0;
    loop {
        let (group, behind) = first_group(rest);
        if !item_fits(group) {
            return false;
        }
        count += 1;
        match behind {
            Some(others) => rest = others,
            None => return count <= 64,
        }
    }
}
