ghost use Rattle.std.specs.Prelude.{◌≡◌};
ghost use Rattle.dx_types.specs.Refusal.{number_of, name_of};

/// Why a call is refused.
#[derive(Clone, Copy, Debug, PartialEq, Eq)]
pub enum Refusal {
    UnknownId,
    IdInUse,
    BadUsage,
    BadBind,
    BadSize,
    OutOfRange,
    SameSubresource,
    BadFormat,
    NotMappable,
    InUse,
    FirstMapNotDiscard,
    BadShader,
    TooManyGroups,
    TooMuchMemory,
    TooManyDynamic,
    QueryState,
    WrongContext,
    UnknownList,
}

impl Refusal {
    /// From 1 to 18, in the order of the variants.
    pub fn number(&self) -> u8
        ensures { result ≡ number_of self.now }
    {
        match self {
            Refusal::UnknownId => 1,
            Refusal::IdInUse => 2,
            Refusal::BadUsage => 3,
            Refusal::BadBind => 4,
            Refusal::BadSize => 5,
            Refusal::OutOfRange => 6,
            Refusal::SameSubresource => 7,
            Refusal::BadFormat => 8,
            Refusal::NotMappable => 9,
            Refusal::InUse => 10,
            Refusal::FirstMapNotDiscard => 11,
            Refusal::BadShader => 12,
            Refusal::TooManyGroups => 13,
            Refusal::TooMuchMemory => 14,
            Refusal::TooManyDynamic => 15,
            Refusal::QueryState => 16,
            Refusal::WrongContext => 17,
            Refusal::UnknownList => 18,
        }
    }

    /// The name as a reply's line has it.
    pub fn name(&self) -> &'static str
        ensures { result.now ≡ name_of self.now }
    {
        match self {
            Refusal::UnknownId => "UnknownId",
            Refusal::IdInUse => "IdInUse",
            Refusal::BadUsage => "BadUsage",
            Refusal::BadBind => "BadBind",
            Refusal::BadSize => "BadSize",
            Refusal::OutOfRange => "OutOfRange",
            Refusal::SameSubresource => "SameSubresource",
            Refusal::BadFormat => "BadFormat",
            Refusal::NotMappable => "NotMappable",
            Refusal::InUse => "InUse",
            Refusal::FirstMapNotDiscard => "FirstMapNotDiscard",
            Refusal::BadShader => "BadShader",
            Refusal::TooManyGroups => "TooManyGroups",
            Refusal::TooMuchMemory => "TooMuchMemory",
            Refusal::TooManyDynamic => "TooManyDynamic",
            Refusal::QueryState => "QueryState",
            Refusal::WrongContext => "WrongContext",
            Refusal::UnknownList => "UnknownList",
        }
    }
}
