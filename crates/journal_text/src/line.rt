ghost use Rattle.std.specs.Prelude.{◌≡◌, ◌∷◌, ◌++◌, OnOk};
ghost use Rattle.std.specs.Fmt.{decimal};
ghost use Rattle.journal_text.specs.Groups.{spaced, numbers_line, walk_lines, walks_lines};
ghost use Rattle.journal_text.specs.TextEntries.{nodes_of};

use itoa::{Buffer, Integer};
use ride_base::NoMemory;
use road_graph::{NodeNo, Walk};

/// How many nodes of a walk stand on one line.
const NODES_ON_LINE: u32 = 64;

/// Adds a space and a number.
fn push_number<I: Integer>(out: &mut Vec<u8>, number: I) -> Result<(), NoMemory>
    ensures { OnOk result (out.new.items ≡ out.old.items ++ 32 ∷ I.text number) }
{
    let mut buffer = Buffer::new();
    out.push(b' ')?;
    out.extend_from_slice(buffer.format(number).as_bytes())?;
    Ok(())
}

/// Adds numbers, each after a space.
pub(crate) fn push_numbers(out: &mut Vec<u8>, numbers: &[u64]) -> Result<(), NoMemory>
    ensures { OnOk result (out.new.items ≡ out.old.items ++ spaced numbers.now) }
{
    for number in numbers {
        push_number(out, *number)?;
    }
    Ok(())
}

/// Adds a line of a letter and numbers.
pub(crate) fn push_line(out: &mut Vec<u8>, letter: u8, numbers: &[u64]) -> Result<(), NoMemory>
    ensures { OnOk result (out.new.items ≡ out.old.items ++ numbers_line letter numbers.now) }
{
    out.push(letter)?;
    push_numbers(out, numbers)?;
    out.push(b'\n')?;
    Ok(())
}

/// Adds walks, each with the number of its leg, as far as both lists go. A leg's number has 128 bits, since it may be past the
/// greatest place of a list.
pub(crate) fn push_walks(out: &mut Vec<u8>, legs: &[u128], walks: &[Walk]) -> Result<(), NoMemory>
    ensures { OnOk result
        (out.new.items ≡ out.old.items ++ walks_lines legs.now (nodes_of walks.now)) }
{
    for (leg, walk) in legs.iter().zip(walks) {
        push_walk(out, *leg, walk.nodes())?;
    }
    Ok(())
}

/// Adds the lines of one walk.
pub(crate) fn push_walk(out: &mut Vec<u8>, leg: u128, nodes: &[NodeNo]) -> Result<(), NoMemory>
    ensures { OnOk result (out.new.items ≡ out.old.items ++ walk_lines leg nodes.now) }
{
    out.push(b'g')?;
    push_number(out, leg)?;
    let mut left = NODES_ON_LINE;
    for node in nodes {
        if left == 0 {
            push_continued(out, leg)?;
            left = NODES_ON_LINE;
        }
        push_number(out, node.0)?;
        left -= 1;
    }
    out.push(b'\n')?;
    Ok(())
}

/// Ends a full line of a walk, and begins the next.
fn push_continued(out: &mut Vec<u8>, leg: u128) -> Result<(), NoMemory>
    ensures { OnOk result (out.new.items ≡ out.old.items ++ 10 ∷ 104 ∷ 32 ∷ decimal leg) }
{
    out.extend_from_slice(b"\nh")?;
    push_number(out, leg)?;
    Ok(())
}
