// Numbers as upper-case hexadecimal text, both ways: two digits read as a byte, and a number written high digit first.
// Every function answers any input.
#![tactic(auto)]

ghost use Rattle.std.specs.Prelude.{◌≡◌};
ghost use Rattle.std.proofs.lemmas.List.Edits.{sets};
ghost use Rattle.hexadecimal.specs.Hex.{hex_of, digit_of, pair_at};

// What two characters say. No Option: document 01, "Which shape goes where", names the enum Byte or Bad.
#[derive(Drop)]
pub enum Pair {
    Byte(u8),
    // One of them is no digit 0-9 A-F, or lies past the end.
    Bad,
}

static DIGITS: [u8; 16] = *b"0123456789ABCDEF";

// The pair of digits at `at`, high digit first.
#[tactic(auto, using(crate::specs::Hex::Laws::pair_past, crate::specs::Hex::Laws::pair_rest, crate::specs::Hex::Laws::digit_value, crate::specs::Hex::Laws::digit_none), unfolding(crate::specs::Hex::pair_of))]
pub fn pair_at(text: &[u8], at: usize) -> Pair
    ensures { result ≡ pair_at text.now at }
{
    let Some([high, low, ..]) = text.get(at..) else {
        return Pair::Bad;
    };
    let Some(high) = nibble(*high) else {
        return Pair::Bad;
    };
    let Some(low) = nibble(*low) else {
        return Pair::Bad;
    };
    Pair::Byte(high * 16 + low)
}

// What a digit stands for.
#[tactic(auto, unfolding(crate::specs::Hex::digit_of, crate::specs::Hex::nibble_of))]
pub fn nibble(character: u8) -> Option<u8>
    ensures { result ≡ digit_of character }
{
    match character {
        b'0'..=b'9' => Some(character - b'0'),
        b'A'..=b'F' => Some(character - b'A' + 10),
        _ => None,
    }
}

// Writes the last `digits` digits of a number from `at` on, high digit first; what falls past the end is left out.
#[tactic(auto, using(crate::specs::Hex::Stores::sets_past))]
pub fn put_hex(out: &mut [u8], at: usize, value: u64, digits: usize)
    ensures { out.new ≡ sets out.old at (hex_of digits value) }
{
    // Past the end there is nothing to write, however many digits are asked for.
    if out.len() <= at {
        return;
    }
    let room = out.len() - at;
    let mut rest = value;
    for left in (0..digits).rev() {
        if left < room {
            out[at + left] = DIGITS[(rest % 16) as usize];
        }
        rest /= 16;
    }
}
