ghost use Rattle.std.specs.Prelude.{◌≡◌, ◌≤◌, ◌++◌, ◌∷◌, length, OnOk, OnErr};
ghost use Rattle.journal_text.specs.Certificates.{rest_text, pairs_after, potential_lines, direct_after, direct_lines, certificate_lines, numbered_lines, joins_lines};
ghost use Rattle.journal_text.specs.Groups.{nodes_on_line};

use crate::line::push_numbers;
use plain_search::Potential;
use ride_base::{Items, NoMemory};
use road_graph::NodeNo;
use std::alloc::Global;

/// How many pairs of a node and its value stand on one line.
const PAIRS_ON_LINE: u32 = 32;

/// How many nodes of a walk stand on one line.
const NODES_ON_LINE: u32 = 64;

/// The number of the potential from the first node of the first joined walk.
const FIRST_JOIN: u64 = 5;

/// What shows that an answer is the best one: bounds of all distances to and from the pickup and the dropoff, and a walk between them.
#[derive(Debug, PartialEq, Eq, Drop)]
pub struct Certificate {
    /// Bounds of the distances to the pickup.
    pub to_pickup: Potential,
    /// Bounds of the distances from the pickup.
    pub from_pickup: Potential,
    /// Bounds of the distances to the dropoff.
    pub to_dropoff: Potential,
    /// Bounds of the distances from the dropoff.
    pub from_dropoff: Potential,
    /// The nodes of a walk from the pickup to the dropoff, or None where there is none.
    pub direct: Option<Items<NodeNo>>,
}

/// Adds the lines of a certificate to a journal, behind those of its answer. At want of memory nothing is added.
pub fn render_proof(alloc: Global, proof: &Certificate, out: &mut Vec<u8>) -> Result<(), NoMemory>
    ensures ok { OnOk result (out.new.items ≡ out.old.items ++ certificate_lines proof.now) }
    ensures err { OnErr result (out.new.items ≡ out.old.items) }
{
    let mut text = Vec::new(alloc);
    push_certificate(&mut text, proof)?;
    out.extend_from_slice(text.as_slice())?;
    Ok(())
}

/// Adds the lines of the potentials from the first nodes of joined walks to a journal, behind those of their removal, with the numbers
/// 5 and 6. At want of memory nothing is added.
pub fn render_joins(alloc: Global, joins: &[Potential], out: &mut Vec<u8>) -> Result<(), NoMemory>
    requires { length joins.now ≤ 2 }
    ensures ok { OnOk result (out.new.items ≡ out.old.items ++ joins_lines joins.now) }
    ensures err { OnErr result (out.new.items ≡ out.old.items) }
{
    let mut text = Vec::new(alloc);
    push_joins(&mut text, joins)?;
    out.extend_from_slice(text.as_slice())?;
    Ok(())
}

fn push_certificate(out: &mut Vec<u8>, proof: &Certificate) -> Result<(), NoMemory>
    ensures { OnOk result (out.new.items ≡ out.old.items ++ certificate_lines proof.now) }
{
    push_potential(out, 1, &proof.to_pickup)?;
    push_potential(out, 2, &proof.from_pickup)?;
    push_potential(out, 3, &proof.to_dropoff)?;
    push_potential(out, 4, &proof.from_dropoff)?;
    push_direct(out, &proof.direct)
}

fn push_joins(out: &mut Vec<u8>, joins: &[Potential]) -> Result<(), NoMemory>
    requires { length joins.now ≤ 2 }
    ensures { OnOk result (out.new.items ≡ out.old.items ++ joins_lines joins.now) }
{
    let mut number = FIRST_JOIN;
    for potential in joins {
        push_potential(out, number, potential)?;
        number += 1;
    }
    Ok(())
}

fn push_potential(out: &mut Vec<u8>, number: u64, potential: &Potential) -> Result<(), NoMemory>
    ensures { OnOk result (out.new.items ≡ out.old.items ++ potential_lines number potential.now) }
{
    out.push(b'u')?;
    push_numbers(out, &[number])?;
    push_rest(out, potential.rest)?;
    push_pairs(out, potential.listed.as_slice())
}

/// Adds the value of each node that isn't listed.
fn push_rest(out: &mut Vec<u8>, rest: Option<u64>) -> Result<(), NoMemory>
    ensures { OnOk result (out.new.items ≡ out.old.items ++ 32 ∷ rest_text rest) }
{
    match rest {
        Some(rest) => push_numbers(out, &[rest]),
        None => out.extend_from_slice(b" -"),
    }
}

/// Ends the line, and adds pairs on lines of their own.
fn push_pairs(out: &mut Vec<u8>, pairs: &[(NodeNo, u64)]) -> Result<(), NoMemory>
    ensures { OnOk result (out.new.items ≡ out.old.items ++ pairs_after 0 pairs.now) }
{
    let mut left = 0;
    for (node, value) in pairs {
        if left == 0 {
            out.extend_from_slice(b"\nw")?;
            left = PAIRS_ON_LINE;
        }
        push_numbers(out, &[u64::from(node.0), *value])?;
        left -= 1;
    }
    out.push(b'\n')?;
    Ok(())
}

fn push_direct(out: &mut Vec<u8>, direct: &Option<Items<NodeNo>>) -> Result<(), NoMemory>
    ensures { OnOk result (out.new.items ≡ out.old.items ++ direct_lines direct.now) }
{
    match direct {
        Some(nodes) => {
            out.push(b'e')?;
            push_nodes(out, nodes.as_slice())
        }
        None => out.extend_from_slice(b"e -\n"),
    }
}

/// Adds nodes behind the letter of a line, and on as many lines behind it as they need.
fn push_nodes(out: &mut Vec<u8>, nodes: &[NodeNo]) -> Result<(), NoMemory>
    ensures { OnOk result (out.new.items ≡ out.old.items ++ direct_after nodes_on_line nodes.now) }
{
    let mut left = NODES_ON_LINE;
    for node in nodes {
        if left == 0 {
            out.extend_from_slice(b"\nf")?;
            left = NODES_ON_LINE;
        }
        push_numbers(out, &[u64::from(node.0)])?;
        left -= 1;
    }
    out.push(b'\n')?;
    Ok(())
}
