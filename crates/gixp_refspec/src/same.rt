//! Equality of refspecs, instructions, names and errors.
ghost use Rattle.std.specs.Prelude.{◌≡◌, ◌↔◌, IsTrue};
ghost use Rattle.gixp_refspec.specs.RefSpec.{value_of, owned_value_of};
ghost use Rattle.gixp_refspec.specs.Instruction.{instruction_value};
ghost use Rattle.gixp_refspec.specs.PartialName.{name_bytes};

use crate::instruction::Instruction;
use crate::name::PartialName;
use crate::parse::Error;
use crate::spec::{RefSpec, RefSpecRef, Sign};

fn is_same(a: &RefSpecRef<'_>, b: &RefSpecRef<'_>) -> bool
    ensures { IsTrue result ↔ (value_of a.now ≡ value_of b.now) }
{
    a == b
}

fn is_same_owned(left: &RefSpec, right: &RefSpec) -> bool
    ensures { IsTrue result ↔ (owned_value_of left.now ≡ owned_value_of right.now) }
{
    left == right
}

fn is_same_name(x: &PartialName, y: &PartialName) -> bool
    ensures { IsTrue result ↔ (name_bytes x.now ≡ name_bytes y.now) }
{
    x == y
}

fn is_same_sign(one: &Sign, other: &Sign) -> bool
    ensures { IsTrue result ↔ (one.now ≡ other.now) }
{
    one == other
}

fn is_same_instruction(first: &Instruction<'_>, second: &Instruction<'_>) -> bool
    ensures { IsTrue result ↔ (instruction_value first.now ≡ instruction_value second.now) }
{
    first == second
}

fn is_same_error(old: &Error, new: &Error) -> bool
    ensures { IsTrue result ↔ (old.now ≡ new.now) }
{
    old == new
}
