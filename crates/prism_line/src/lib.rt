// A line of a PRISM text, by its fields.
#![tactic(auto)]

ghost use Rattle.std.specs.Prelude.{◌≡◌, ◌≤◌, length, drop};
ghost use Rattle.prism.specs.definitions.Lines.{pieces};
ghost use Rattle.prism_line.specs.LineRead.{whole_in, LineRead, LineTold, HeadRead};
ghost use Rattle.prism_line.specs.LineParts.{RestRead};

const SPACE: u8 = 0x20;

// What stands behind source and choice; the target is none where its field is no number below 65,536. The name is told by where it begins in the
// line, at the end where there is none.
#[derive(Clone, Copy)]
pub struct Rest {
    pub target: Option<usize>,
    pub parts: usize,
    pub name: usize,
}

// Source and choice are none where the field is no number below 65,536, or the two are not each followed by a space; the rest is none where it breaks
// the form.
#[derive(Clone, Copy)]
pub struct Line {
    pub source: Option<usize>,
    pub choice: Option<usize>,
    pub rest: Option<Rest>,
}

const BROKEN: Line = Line {
    source: None,
    choice: None,
    rest: None,
};

// The fields from a place on.
fn read_rest(s: &[u8], from: usize) -> Option<Rest>
    requires { from ≤ length s.now }
    ensures { RestRead (pieces 0x20 (drop from s.now)) s.now result }
{
    let third = text_fields::piece_end(s, from, SPACE);
    if third == s.len() {
        return None;
    }
    let target = text_fields::number(&s[from..third]);
    let fourth = text_fields::piece_end(s, third + 1, SPACE);
    let parts = text_fields::probability(&s[third + 1..fourth])?;
    if fourth == s.len() {
        return Some(Rest {
            target,
            parts,
            name: fourth,
        });
    }
    if !text_fields::is_name(&s[fourth + 1..]) {
        return None;
    }
    Some(Rest {
        target,
        parts,
        name: fourth + 1,
    })
}

pub fn read_line(s: &[u8]) -> Line
    ensures read { LineRead s.now result }
    ensures told { LineTold s.now result }
{
    let first = text_fields::piece_end(s, 0, SPACE);
    if first == s.len() {
        return BROKEN;
    }
    let second = text_fields::piece_end(s, first + 1, SPACE);
    if second == s.len() {
        return BROKEN;
    }
    let source = text_fields::number(&s[..first]);
    let choice = text_fields::number(&s[first + 1..second]);
    let rest = read_rest(s, second + 1);
    Line {
        source,
        choice,
        rest,
    }
}

// A line whose numbers are all below 65,536.
#[derive(Clone, Copy)]
pub struct Whole {
    pub source: usize,
    pub choice: usize,
    pub target: usize,
    pub parts: usize,
    pub name: usize,
}

pub fn whole_of(line: Line) -> Option<Whole>
    ensures { result ≡ whole_in line }
{
    let source = line.source?;
    let choice = line.choice?;
    let rest = line.rest?;
    let target = rest.target?;
    Some(Whole {
        source,
        choice,
        target,
        parts: rest.parts,
        name: rest.name,
    })
}

// A head line.
#[derive(Clone, Copy)]
pub struct Head {
    pub states: usize,
    pub choices: usize,
    pub transitions: usize,
}

pub fn read_head(s: &[u8]) -> Option<Head>
    ensures { HeadRead s.now result }
{
    let first = text_fields::piece_end(s, 0, SPACE);
    if first == s.len() {
        return None;
    }
    let second = text_fields::piece_end(s, first + 1, SPACE);
    if second == s.len() {
        return None;
    }
    let states = text_fields::number(&s[..first])?;
    let choices = text_fields::number(&s[first + 1..second])?;
    let transitions = text_fields::number(&s[second + 1..])?;
    if states == 0 || limits::STATES < states {
        return None;
    }
    if limits::TRANSITIONS < choices || limits::ENTRIES < transitions {
        return None;
    }
    Some(Head {
        states,
        choices,
        transitions,
    })
}
