// A record opened: two bytes, its mark, its fixed part.
#![tactic(auto)]

ghost use Rattle.std.specs.Prelude.{◌≤◌, length};
ghost use Rattle.rules.specs.definitions.Faults.{model_record, certificate_record, open_fault};
ghost use Rattle.fault.specs.Faults.{number_of, Placed};

use fault::{Fault, Refusal};
use field::Cursor;

// The record at a place, whose fixed part has so many bytes with the mark: refused where the file ends inside it, or it has another mark.
fn open(
    s: &[u8],
    at: usize,
    mark: usize,
    size: usize,
    ends: Refusal,
    wrong: Refusal,
) -> Result<(), Fault>
    requires { at ≤ length s.now }
    ensures { Placed (open_fault (record { ends = number_of ends; mark = number_of wrong }) mark size s.now at) at result }
{
    let left = s.len() - at;
    if left < 2 {
        return Err(ends.fault().at(at));
    }
    if Cursor::new(at).pair(s).value != mark {
        return Err(wrong.fault().at(at));
    }
    if left < size {
        return Err(ends.fault().at(at));
    }
    Ok(())
}

// A record of a model.
pub fn open_model(s: &[u8], at: usize, mark: usize, size: usize) -> Result<(), Fault>
    requires { at ≤ length s.now }
    ensures { Placed (open_fault model_record mark size s.now at) at result }
{
    open(s, at, mark, size, Refusal::ModelEnds, Refusal::ModelMark)
}

// A record of a certificate.
pub fn open_certificate(s: &[u8], at: usize, mark: usize, size: usize) -> Result<(), Fault>
    requires { at ≤ length s.now }
    ensures { Placed (open_fault certificate_record mark size s.now at) at result }
{
    open(
        s,
        at,
        mark,
        size,
        Refusal::CertificateEnds,
        Refusal::CertificateMark,
    )
}
