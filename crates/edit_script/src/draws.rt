//! Numbers that look as if they were drawn by lot.

ghost use Rattle.std.specs.Prelude.{◌≡◌, ◌<◌};
ghost use Rattle.edit_script.specs.Draws.{drawn, next_state};

/// A linear congruential generator. Its numbers serve for tests, and for nothing that is to be secret.
#[derive(Drop)]
pub(crate) struct Draws {
    pub(crate) state: u32,
}

impl Draws {
    /// A number below the bound.
    pub(crate) fn draw(&mut self, bound: u32) -> u32
        requires { 0 < bound }
        ensures drawn { result ≡ drawn bound self.new.state }
        ensures state { self.new.state ≡ next_state self.old.state }
    {
        let next = (u64::from(self.state) * 1103515245 + 12345) % 2147483648;
        self.state = next as u32;
        self.state / 65536 % bound
    }
}
