// What a record is of.
use std::fmt;

// By its number in the file. Runs, assemblies and lists of decisions are one case to a record, the layers below many.
#[derive(Clone, Copy)]
pub enum Kind {
    Run = 1,
    Assembly = 2,
    List = 3,
    Narrow = 16,
    Sqrt32 = 17,
    Sqrt64 = 18,
    QuaternionOfMatrix = 19,
    Product = 20,
    Inverse = 21,
    Exp = 22,
    Log = 23,
    Retract = 24,
    RetractWithGravity = 25,
    Residual = 26,
    Solve = 27,
}

// In the order of their numbers.
pub const KINDS: [Kind; 15] = [
    Kind::Run,
    Kind::Assembly,
    Kind::List,
    Kind::Narrow,
    Kind::Sqrt32,
    Kind::Sqrt64,
    Kind::QuaternionOfMatrix,
    Kind::Product,
    Kind::Inverse,
    Kind::Exp,
    Kind::Log,
    Kind::Retract,
    Kind::RetractWithGravity,
    Kind::Residual,
    Kind::Solve,
];

#[derive(Clone, Copy)]
pub struct UnknownKind;

impl TryFrom<u32> for Kind {
    type Error = UnknownKind;

    fn try_from(number: u32) -> Result<Kind, UnknownKind> {
        KINDS
            .iter()
            .copied()
            .find(|kind| *kind as u32 == number)
            .ok_or(UnknownKind)
    }
}

impl fmt::Display for Kind {
    fn fmt<W: fmt::Write>(&self, f: &mut fmt::Formatter<W>) -> fmt::Result {
        f.write_str(match self {
            Kind::Run => "runs",
            Kind::Assembly => "assemblies",
            Kind::List => "lists",
            Kind::Narrow => "narrow",
            Kind::Sqrt32 => "sqrt32",
            Kind::Sqrt64 => "sqrt64",
            Kind::QuaternionOfMatrix => "quaternion_of_matrix",
            Kind::Product => "product",
            Kind::Inverse => "inverse",
            Kind::Exp => "exp",
            Kind::Log => "log",
            Kind::Retract => "retract",
            Kind::RetractWithGravity => "retract_with_gravity",
            Kind::Residual => "residual",
            Kind::Solve => "solve",
        })
    }
}
