ghost use Rattle.std.specs.Prelude.{◌≡◌};
ghost use Rattle.lines.specs.Refusals.{number};

#[derive(Clone, Copy, PartialEq, Eq, Debug)]
pub enum Command {
    Distance(u32, u32),
    Gap(u32, u32),
}

#[derive(Clone, Copy, PartialEq, Eq, Debug)]
pub struct NotACommand;

impl NotACommand {
    pub fn number(&self) -> u8
        ensures { result ≡ number self.now }
    {
        30
    }
}
