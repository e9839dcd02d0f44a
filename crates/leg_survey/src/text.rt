//! The lines of a survey, each appended to a text.

ghost use Rattle.std.specs.Prelude.{◌≡◌, ◌++◌, decimal, OnOk};
ghost use Rattle.record_text.specs.Messages.{code_number};
ghost use Rattle.leg_survey.specs.Survey.{sight_text, refusal_text, count_text};

use itoa::Buffer;
use leg_fence::LegSight;
use mission_model::AckCode;
use std::alloc::AllocError;

fn push_number(out: &mut Vec<u8>, number: u64) -> Result<(), AllocError>
    ensures { OnOk result (out.new.items ≡ out.old.items ++ decimal number) }
{
    let mut digits = Buffer::new();
    out.extend_from_slice(digits.format(number).as_bytes())
}

/// A code's number in MAV_MISSION_RESULT.
fn number_of(code: AckCode) -> u64
    ensures { result ≡ code_number code }
{
    code as u64
}

/// Appends the line of a leg, where it is not clear.
pub fn push_sight(out: &mut Vec<u8>, from: u16, to: u16, sight: LegSight) -> Result<(), AllocError>
    ensures { OnOk result (out.new.items ≡ out.old.items ++ sight_text from to sight) }
{
    let (word, number): (&[u8], u16) = match sight {
        LegSight::Clear => return Ok(()),
        LegSight::OutsideFrom => (b" outside ", from),
        LegSight::OutsideTo => (b" outside ", to),
        LegSight::Edge(edge) => (b" edge ", edge),
    };
    out.extend_from_slice(b"leg ")?;
    push_number(out, u64::from(from))?;
    out.extend_from_slice(b" ")?;
    push_number(out, u64::from(to))?;
    out.extend_from_slice(word)?;
    push_number(out, u64::from(number))?;
    out.extend_from_slice(b"\n")
}

/// Appends where a plan is refused, and by which code.
pub fn push_refusal(out: &mut Vec<u8>, at: (u16, AckCode)) -> Result<(), AllocError>
    ensures { OnOk result (out.new.items ≡ out.old.items ++ refusal_text at) }
{
    out.extend_from_slice(b" refused ")?;
    push_number(out, u64::from(at.0))?;
    out.extend_from_slice(b" ")?;
    push_number(out, number_of(at.1))?;
    out.extend_from_slice(b"\n")
}

/// Appends how many legs a mission has, and how many of them are clear.
pub fn push_count(out: &mut Vec<u8>, name: &[u8], count: u16, clear: u16) -> Result<(), AllocError>
    ensures { OnOk result (out.new.items ≡ out.old.items ++ count_text name.now count clear) }
{
    out.extend_from_slice(b"survey ")?;
    out.extend_from_slice(name)?;
    out.extend_from_slice(b" legs ")?;
    push_number(out, u64::from(count))?;
    out.extend_from_slice(b" clear ")?;
    push_number(out, u64::from(clear))?;
    out.extend_from_slice(b"\n")
}
