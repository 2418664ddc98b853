ghost use Rattle.std.specs.Prelude.{◌≡◌};
ghost use Rattle.script.specs.FieldUse.{used_by};

use super::kind::Kind;

// A row of the table, as the format has it: five answers of yes or no, and no set of names.
/// Which fields of a record a kind uses. The others are 0 in a good record.
#[derive(Clone, Copy, PartialEq, Eq, Debug)]
pub struct Fields {
    pub core: bool,
    pub label: bool,
    pub a: bool,
    pub b: bool,
    pub c: bool,
}

// A core, and no number.
const CORE: Fields = Fields {
    core: true,
    label: false,
    a: false,
    b: false,
    c: false,
};

// A core, and one number.
const ONE: Fields = Fields { a: true, ..CORE };

// A core, and two numbers.
const TWO: Fields = Fields { b: true, ..ONE };

// A core, and three numbers.
const THREE: Fields = Fields { c: true, ..TWO };

// A row for each kind, in the order of the kinds.
const USED: [Fields; 9] = [
    THREE,
    Fields { label: true, ..TWO },
    ONE,
    TWO,
    TWO,
    ONE,
    CORE,
    CORE,
    Fields { core: false, ..ONE },
];

/// The fields that records of this kind use.
pub fn fields_of(kind: Kind) -> Fields
    ensures { result ≡ used_by kind }
{
    USED[kind as usize]
}
