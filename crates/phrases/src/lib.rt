// The phrase of a number, from a table of constants.
#![tactic(auto)]

ghost use Rattle.std.specs.Prelude.{◌+◌, ◌≤◌, ◌≡◌, map, length};
ghost use Rattle.sentences.specs.definitions.Phrases.{phrases, phrase_of};
ghost use Rattle.writer.specs.Appends.{Appends};

// The phrases of the numbers from 0 on.
const PHRASES: [&[u8]; 42] = [
    b"everything that was asked for was done and nothing was refused",
    b"the model file ends inside a record or where the next one should begin",
    b"a record of the model does not begin with the mark that belongs there",
    b"the head of the model gives a number of states, actions or transitions that is not allowed",
    b"the model has a label that is higher than allowed",
    b"a transition of the model has a source, action, denominator or entry count that is not allowed",
    b"a transition of the model leads to an unknown or misplaced state or has a weight of zero",
    b"the weights of a transition do not add up to its denominator",
    b"the transitions of the model have more entries together than are allowed",
    b"the model file goes on after the model has ended",
    b"the buffer that was lent for the blocks is too short for all states",
    b"the certificate file ends inside a record or where the next one should begin",
    b"a record of the certificate does not begin with the mark that belongs there",
    b"the head of the certificate announces more refutations than are allowed",
    b"a refutation names an unknown transition or state or a pair of states that it cannot part",
    b"a price condition of a refutation, other than its last one, does not hold",
    b"the last price condition of a refutation does not hold",
    b"the blocks of the certificate are not numbered in the order in which they first appear",
    b"the blocks of the certificate do not agree with the pairs of states that are still related",
    b"a flow moves nothing or has an entry that is out of order, zero, unknown or out of place",
    b"what comes to a state in a flow is not what leaves it",
    b"what a flow leaves at a target is not the share that the challenging transition has there",
    b"the certificate file goes on after its last flow",
    b"the certificate is accepted but the lent buffer is too short for the merged model",
    b"the model does not have the state whose transitions were asked for",
    b"the two models joined to one have more states, transitions or entries than are allowed",
    b"the lent buffer is too short for the two models joined to one",
    b"the certificate is accepted but a state to be compared is not in its part of the model",
    b"the certificate is accepted but the lent buffer is too short for the sheet of blocks",
    b"the model has a cost that is higher than allowed",
    b"what a flow costs is not what the challenging transition costs",
    b"a line of the text is missing, surplus, too much for a model or not of the right form",
    b"the probabilities of a choice in the text do not add up to one",
    b"the lent buffer is too short for the model that the text holds",
    b"the weights of a transition have a common divisor and so are not in lowest terms",
    b"the certificate is accepted but a number of a flow becomes too large in lowest terms",
    b"the certificate is accepted but a lent buffer is too short for a file in lowest terms",
    b"the composition of the two models goes beyond what a model may hold",
    b"the lent buffer is too short for the composed model or for the one with actions hidden",
    b"the lent buffer is too short for the sentence",
    b"the number of states or transitions asked for the largest certificate is not allowed",
    b"a lent buffer is too short for the model with the largest certificate or for the certificate",
];

// The phrase of all other numbers.
const OTHER: &[u8] = b"no answer of this version has this number";

fn phrase_of(table: &[&'static [u8]], number: u32) -> &'static [u8]
    requires { map (λ p. p.now) table.now ≡ phrases }
    ensures { result.now ≡ phrase_of number }
{
    let row = number as usize;
    if row < table.len() { table[row] } else { OTHER }
}

// The phrase of a number appended to what stands in a lent buffer, and the place after it.
pub fn write_phrase(out: &mut [u8], at: usize, number: u32) -> usize
    requires { at + length (phrase_of number) ≤ length out.old }
    ensures { Appends (phrase_of number) at out.old out.new result }
{
    writer::part(out, at, phrase_of(&PHRASES, number))
}
