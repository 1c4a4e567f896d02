// The flows of an accepted certificate with each k multiplied by the divisor of its transition: the first with a k too large, and the file written.
// Records keep their places.
#![tactic(auto)]

ghost use Rattle.std.specs.Prelude.{◌≤◌, ◌≡◌, length};
ghost use Rattle.rules.specs.definitions.Encoding.{list_bytes, k_bytes, flow_bytes};
ghost use Rattle.rules.specs.definitions.CertificateAt.{flow_record_at};
ghost use Rattle.rewriting.specs.definitions.RewriteAnswer.{passes_k};
ghost use Rattle.writer.specs.Appends.{Appends};
ghost use Rattle.field.specs.Taken.{Taken};
ghost use Rattle.rewritten_flows.specs.Flows.{multiplied_at, EntryReady, KsReady, KsFit, multiplied_ks, multiplied_flow, FlowFits, FlowsStand, FirstLarge, FlowsFit, FlowsWritten};

use divisors::Divisors;
use field::{Cursor, Field};

const HIGHEST_K: usize = 0xFFFF_FFFF;

// The k of the entry at a place, multiplied, and the place after the entry.
fn multiplied(cert: &[u8], divisors: &Divisors, place: Cursor) -> Field
    requires { EntryReady cert.now divisors.now place.at }
    ensures { Taken cert.now (multiplied_at divisors.now) place.at 7 281474976710656 result }
{
    let r = Cursor::new(place.at + 1).pair(cert);
    let k = r.next.quad(cert);
    let next = k.next;
    let transition = r.value;
    Field {
        value: k.value * divisors[transition],
        next,
    }
}

// Whether one of so many k entries from a place on is above the highest, once it is multiplied.
fn large_ks(cert: &[u8], divisors: &Divisors, ks: usize, first: Cursor) -> bool
    requires { KsReady cert.now divisors.now ks first.at }
    ensures { result ≡ passes_k (multiplied_ks divisors.now cert.now ks first.at) }
{
    let mut place = first;
    for _ in 0..ks {
        let k = multiplied(cert, divisors, place);
        if HIGHEST_K < k.value {
            return true;
        }
        place = k.next;
    }
    false
}

// The place of the first flow from a place on that has such a k.
pub fn first_large(cert: &[u8], divisors: &Divisors, start: usize) -> Option<usize>
    requires { FlowsStand cert.now divisors.now start }
    ensures { FirstLarge divisors.now cert.now start result }
{
    let mut at = start;
    while at < cert.len() {
        let ks = Cursor::new(at + 6).pair(cert);
        if large_ks(cert, divisors, ks.value, ks.next) {
            return Some(at);
        }
        let behind = at + 8 + 7 * ks.value;
        let ws = Cursor::new(behind).pair(cert).value;
        at = behind + 2 + 6 * ws;
    }
    None
}

// So many k entries from a place on, each multiplied. Hands back the place after them.
fn write_ks(cert: &[u8], divisors: &Divisors, ks: usize, first: Cursor, out: &mut [u8]) -> usize
    requires { KsFit cert.now divisors.now ks first.at × (length cert.now ≤ length out.old) }
    ensures { Appends (list_bytes k_bytes (multiplied_ks divisors.now cert.now ks first.at)) first.at out.old out.new result }
{
    let mut place = first;
    for _ in 0..ks {
        let start = place.at;
        let k = multiplied(cert, divisors, place);
        let next = writer::part(out, start, &cert[start..start + 3]);
        writer::quad(out, next, k.value);
        place = k.next;
    }
    place.at
}

// The flow record at a place, the same way.
fn write_flow(cert: &[u8], divisors: &Divisors, at: usize, out: &mut [u8]) -> usize
    requires { FlowFits cert.now divisors.now at × (length cert.now ≤ length out.old) }
    ensures { Appends (flow_bytes (multiplied_flow divisors.now (flow_record_at cert.now at))) at out.old out.new result }
{
    let ks = Cursor::new(at + 6).pair(cert);
    writer::part(out, at, &cert[at..at + 8]);
    let behind = write_ks(cert, divisors, ks.value, ks.next, out);
    let ws = Cursor::new(behind).pair(cert).value;
    let end = behind + 2 + 6 * ws;
    writer::part(out, behind, &cert[behind..end])
}

// The whole file, whose flows begin at a place; each multiplied k fits its field.
pub fn write_file(cert: &[u8], divisors: &Divisors, start: usize, out: &mut [u8])
    requires { FlowsFit cert.now divisors.now start × (length cert.now ≤ length out.old) }
    ensures { FlowsWritten divisors.now cert.now start out.old out.new }
{
    let mut at = writer::part(out, 0, &cert[..start]);
    while at < cert.len() {
        at = write_flow(cert, divisors, at, out);
    }
}
