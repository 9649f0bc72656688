// Plays events to a new tag and prints the line bits. Standard input: eight ROM bytes and the code, then three bytes an event.
// Standard output: 0 or 1 and a line feed for each event; for a refusal R, its number in two digits and a line feed, and the end.
#![tactic(auto)]

ghost use Rattle.std.proofs.Common.{rules, refl};
ghost use Rattle.play.specs.Play.{reply_of, session_of};

use answer::Refusal;
use console::Plays;
use record::Tag;

// A tag alone, whose events are three bytes: code, reading high, low.
struct Alone {}

impl Plays<3> for Alone {
    type Record = Tag;

    ghost reply = { reply_of };

    ghost session = { session_of };

    ghost grouped = { λ lent back input. refl };

    ghost sized = { (Prim.search rules, Prim.search rules) };

    #[tactic(auto, unfolding(crate::specs::Play::reply_of))]
    fn event(tag: &mut Tag, image: &mut [u8], group: &[u8; 3]) -> Result<bool, Refusal> {
        let [code, high, low] = *group;
        let reading = console::reading_of(high, low);
        let answered = tag::event(image, *tag, code, reading);
        *tag = answered.tag;
        answered.answer?;
        Ok(answered.line)
    }
}

fn main(rt: HostRuntime) {
    let mut image = [0u8; 8832];
    let mut head = [0u8; 9];
    // Missing bytes stay 00h.
    console::read_full(rt.stdin(), &mut head);
    let number = image::word(&head, 0, 8);
    let made = tag::new(&mut image, number, head[8]);
    if !console::refused(rt.stdout(), made.answer) {
        let mut tag = made.tag;
        console::play::<3, Alone>(rt.stdin(), rt.stdout(), &mut tag, &mut image);
    }
}
