// The modes of an error entry and their codes (EPSG DS 301, Table 96).
ghost use Rattle.std.specs.Prelude.{true, false, ◌≡◌};
ghost use Rattle.types.specs.CodeCauses.{ReadsMode};
ghost use Rattle.types.specs.Modes.{mode_code, mode_in, unless_terminator};

#[derive(Clone, Copy, Debug, PartialEq, Eq)]
pub enum ErrorEntryMode {
    Terminator = 0,
    ErrorActive = 1,
    ErrorCleared = 2,
    EventOccurred = 3,
}

// An octet that is the code of no mode.
#[derive(Clone, Copy, Debug, PartialEq, Eq)]
pub struct UnknownMode(pub u8);

impl TryFrom<u8> for ErrorEntryMode {
    type Error = UnknownMode;

    ghost try_from_gives = { ReadsMode };

    #[tactic(auto, unfolding(crate::specs::Modes::mode_of))]
    fn try_from(b: u8) -> Result<ErrorEntryMode, UnknownMode> {
        match b {
            0 => Ok(ErrorEntryMode::Terminator),
            1 => Ok(ErrorEntryMode::ErrorActive),
            2 => Ok(ErrorEntryMode::ErrorCleared),
            3 => Ok(ErrorEntryMode::EventOccurred),
            _ => Err(UnknownMode(b)),
        }
    }
}

impl ErrorEntryMode {
    // The mode in the two low bits of an octet. No `From`: of an octet as a whole `try_from` says whether it is a code.
    #[tactic(auto, unfolding(crate::specs::Modes::mode_in))]
    pub fn from_bits(b: u8) -> ErrorEntryMode
        ensures { result ≡ mode_in b }
    {
        match b % 4 {
            0 => ErrorEntryMode::Terminator,
            1 => ErrorEntryMode::ErrorActive,
            2 => ErrorEntryMode::ErrorCleared,
            _ => ErrorEntryMode::EventOccurred,
        }
    }

    // Whether it ends a list of entries: it is the mode of none.
    pub fn is_terminator(self) -> bool
        ensures { result ≡ unless_terminator self false true }
    {
        self == ErrorEntryMode::Terminator
    }
}

impl From<ErrorEntryMode> for u8 {
    ghost from_gives = { λ x b. b ≡ mode_code x };

    fn from(mode: ErrorEntryMode) -> u8 {
        mode as u8
    }
}
