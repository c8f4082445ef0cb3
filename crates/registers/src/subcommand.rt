// The subcommands of AUX, and IMG to memory and from memory as if they were two more.
ghost use Rattle.std.specs.Prelude.{◌≡◌};
ghost use Rattle.registers.specs.Subcommand.{subcommand_of, wants};

// The largest AUX number, and the one that is not modelled.
pub const LARGEST_AUX: u16 = 12;

pub const UNMODELLED_AUX: u16 = 11;

// The subcommands that are modelled, and none. (`Shape` says why no Option stands around them.)
#[derive(Clone, Copy)]
pub enum Subcommand {
    Nothing,
    Pmode,
    Lmode,
    Zcontrol,
    Hcontrol,
    Tpattern,
    Window,
    Section,
    Color,
    Lpattern,
    Mask,
    Lstatus,
    Imode,
    Load,
    Save,
}

// The subcommand of an AUX number; nothing for one that is not modelled, and for 13.
impl From<u16> for Subcommand {
    ghost from_gives = { λ number s. s ≡ subcommand_of number };

    #[tactic(auto, unfolding(crate::specs::Subcommand::subcommand_of))]
    fn from(number: u16) -> Subcommand {
        match number {
            0 => Subcommand::Pmode,
            1 => Subcommand::Lmode,
            2 => Subcommand::Imode,
            3 => Subcommand::Zcontrol,
            4 => Subcommand::Hcontrol,
            5 => Subcommand::Tpattern,
            6 => Subcommand::Window,
            7 => Subcommand::Section,
            8 => Subcommand::Color,
            9 => Subcommand::Lpattern,
            10 => Subcommand::Mask,
            12 => Subcommand::Lstatus,
            14 => Subcommand::Load,
            15 => Subcommand::Save,
            _ => Subcommand::Nothing,
        }
    }
}

impl Subcommand {
    // How many parameters a subcommand takes.
    pub fn wanted(self) -> u16
        ensures { result ≡ wants self }
    {
        match self {
            Subcommand::Nothing => 0,
            Subcommand::Color | Subcommand::Lpattern => 2,
            Subcommand::Load | Subcommand::Save => 4,
            Subcommand::Window => 5,
            Subcommand::Pmode
            | Subcommand::Lmode
            | Subcommand::Zcontrol
            | Subcommand::Hcontrol
            | Subcommand::Tpattern
            | Subcommand::Section
            | Subcommand::Mask
            | Subcommand::Lstatus
            | Subcommand::Imode => 1,
        }
    }
}
