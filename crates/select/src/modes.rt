// Resume mark and speed as one value, and out of it again.
ghost use Rattle.std.specs.Prelude.{◌≡◌};
ghost use Rattle.select.specs.Select.{mark_in, speed_in, mode_of, whole};

use crate::Mode;

impl Mode {
    // Resume mark and speed as given. No `From` of a pair: two flags with names say which is which.
    #[tactic(auto, unfolding(crate::specs::Select::mode_of))]
    pub(crate) fn made(mark: bool, speed: bool) -> Mode
        ensures { result ≡ mode_of mark speed }
    {
        match (mark, speed) {
            (false, false) => Mode::Plain,
            (true, false) => Mode::Marked,
            (false, true) => Mode::Overdrive,
            (true, true) => Mode::OverdriveMarked,
        }
    }

    // The Resume mark.
    #[tactic(auto, unfolding(crate::specs::Select::mark_in))]
    pub(crate) fn mark(self) -> bool
        ensures { result ≡ mark_in self }
    {
        matches!(self, Mode::Marked | Mode::OverdriveMarked)
    }

    // The speed: whether it is overdrive.
    #[tactic(auto, unfolding(crate::specs::Select::speed_in))]
    pub(crate) fn speed(self) -> bool
        ensures { result ≡ speed_in self }
    {
        matches!(self, Mode::Overdrive | Mode::OverdriveMarked)
    }

    // A whole Match or Search sets the mark, an overdrive Match, which is `fast`, the speed too.
    pub(crate) fn whole(self, fast: bool) -> Mode
        ensures { result ≡ whole fast self }
    {
        Mode::made(true, fast || self.speed())
    }
}
