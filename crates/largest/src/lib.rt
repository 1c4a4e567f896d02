// The pair of files with the most flow records for n states and so many transitions (document 02, K13).
#![tactic(auto)]

ghost use Rattle.std.specs.Prelude.{◌+◌, ◌*◌, ◌-◌, ◌≤◌, ◌<◌, length, ◌≡◌};
ghost use Rattle.rules.specs.definitions.Limits.{current};
ghost use Rattle.rules.specs.definitions.Encoding.{list_bytes, flow_bytes};
ghost use Rattle.writer.specs.Appends.{Appends};
ghost use Rattle.largest_pair.specs.definitions.LargestPair.{zeros, stays, flows_against, largest_model_file, largest_certificate_file};
ghost use Rattle.largest_pair.specs.definitions.FewFlows.{most_flows};
ghost use Rattle.largest_pair.specs.definitions.LargestAnswer.{outside_limits, WithinLimits};
ghost use Rattle.largest.specs.Largest.{LargestAnswered};
ghost use Rattle.largest.specs.Repeated.{repeated};

use answer::{Answer, PairAnswer};
use fault::Refusal;
use limits::{STATES, TRANSITIONS};

// The record of the internal transition from state 0 to itself.
const LOOP: &[u8] = b"TR\0\0\0\x01\x01\0\0\x01";

// So many bytes 0.
fn write_zeros(out: &mut [u8], at: usize, count: usize) -> usize
    requires { at + count ≤ length out.old }
    ensures { Appends (zeros count) at out.old out.new result }
{
    let next = at + count;
    out[at..next].fill(0);
    next
}

// A record, so many times.
fn write_repeated(out: &mut [u8], at: usize, bytes: &[u8], count: usize) -> usize
    requires { at + length bytes.now * count ≤ length out.old }
    ensures { Appends (repeated bytes.now count) at out.old out.new result }
{
    let mut next = at;
    for _ in 0..count {
        next = writer::part(out, next, bytes);
    }
    next
}

// The model's file at the start of a buffer, and its length.
fn write_model(out: &mut [u8], n: usize, count: usize) -> usize
    requires { (n < 256) × (count < 65536) × (8 + n + 10 * count ≤ length out.old) }
    ensures { Appends (largest_model_file n count) 0 out.old out.new result }
{
    let labels = writer::head(out, n, 1, count);
    let records = write_zeros(out, labels, n);
    write_repeated(out, records, LOOP, count)
}

// The flow by which t answers, staying where it is: D 1, no k, and one w, from t to 0.
fn flow(t: usize) -> [u8; 16]
    requires { t < 256 }
    ensures { result ≡ flow_bytes (stays t) }
{
    let mut bytes = *b"FL\0\0\0\x01\0\0\0\x01\0\0\0\0\0\x01";
    bytes[10] = t as u8;
    bytes
}

// The flows against every other state.
fn write_flows(out: &mut [u8], at: usize, n: usize, count: usize) -> usize
    requires { (1 ≤ n) × (n ≤ 256) × (at + 16 * most_flows n count ≤ length out.old) }
    ensures { Appends (list_bytes flow_bytes (flows_against count (n - 1) 1)) at out.old out.new result }
{
    let mut next = at;
    for t in 1..n {
        next = write_repeated(out, next, &flow(t), count);
    }
    next
}

// The certificate's file at the start of a buffer, and its length.
fn write_certificate(out: &mut [u8], n: usize, count: usize) -> usize
    requires { (1 ≤ n) × (n ≤ 256) × (6 + n + 16 * most_flows n count ≤ length out.old) }
    ensures { Appends (largest_certificate_file n count) 0 out.old out.new result }
{
    let blocks = writer::part(out, 0, b"CT\0\0BK");
    let flows = write_zeros(out, blocks, n);
    write_flows(out, flows, n, count)
}

// Whether there are no states, or more states or transitions than a model may have.
fn outside(n: u32, count: u32) -> bool
    ensures { result ≡ outside_limits current n count }
{
    n < 1 || STATES < n as usize || TRANSITIONS < count as usize
}

// Within the limits: 41, or both files.
fn write_pair(
    n: usize,
    count: usize,
    model_out: &mut [u8],
    certificate_out: &mut [u8],
) -> PairAnswer
    requires { WithinLimits current n count }
    ensures { LargestAnswered n count model_out.old certificate_out.old model_out.new certificate_out.new result }
{
    let model_size = 8 + n + 10 * count;
    let certificate_size = 6 + n + 16 * (count * (n - 1));
    if model_out.len() < model_size {
        return answer::unwritten(Answer::refused(Refusal::LargestRoom));
    }
    if certificate_out.len() < certificate_size {
        return answer::unwritten(Answer::refused(Refusal::LargestRoom));
    }
    let model_written = write_model(model_out, n, count);
    let certificate_written = write_certificate(certificate_out, n, count);
    PairAnswer {
        answer: Answer::written(model_written),
        certificate_written,
    }
}

// What the call that writes the largest pair answers.
pub fn largest_answer(
    n: u32,
    count: u32,
    model_out: &mut [u8],
    certificate_out: &mut [u8],
) -> PairAnswer
    ensures { LargestAnswered n count model_out.old certificate_out.old model_out.new certificate_out.new result }
{
    if outside(n, count) {
        return answer::unwritten(Answer::refused(Refusal::LargestLimits));
    }
    write_pair(n as usize, count as usize, model_out, certificate_out)
}
