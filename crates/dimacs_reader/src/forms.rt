ghost use Rattle.std.specs.Prelude.{◌≡◌, ◌∷◌, [], length, IfNone, IfSome, cond, pos, neg_ℤ};
ghost use Rattle.ride_base.specs.Fields.{fields_of};
ghost use Rattle.dimacs_reader.specs.Forms.{graph_line as graph_line_in, problem_of, arc_of, place_line as place_line_in, header_of, place_of};
ghost use Rattle.dimacs_reader.specs.Reading.{read_graph_line, read_place_line, read_coordinate, coordinate_of};

use ride_base::{begins_comment, capped_number, next_field};

/// The largest size of a coordinate.
const LARGEST_COORDINATE: u64 = 2_147_483_647;

/// What a line of a graph says by itself. Its numbers are cut at 2^64 - 1.
#[derive(Clone, Copy, Debug)]
pub enum GraphLine {
    /// A comment, or a line without fields.
    Skipped,
    /// `p sp N M`: so many nodes, and so many roads.
    Problem { nodes: u64, roads: u64 },
    /// `a U V W`: a road, its ends and its weight.
    Arc { from: u64, to: u64, weight: u64 },
    /// None of these.
    Formless,
}

/// What a line of places says by itself. Its numbers are cut at 2^64 - 1.
#[derive(Clone, Copy, Debug)]
pub enum PlaceLine {
    /// A comment, or a line without fields.
    Skipped,
    /// `p aux sp co N`: so many nodes.
    Header {
        nodes: u64,
    },
    /// `v ID X Y`: a node and where it lies.
    Place {
        node: u64,
        x: Coordinate,
        y: Coordinate,
    },
    /// None of these.
    Formless,
}

/// A number with an optional sign.
#[derive(Clone, Copy, Debug)]
pub enum Coordinate {
    /// It is at most 2,147,483,647 in size.
    Within(i64),
    Outside,
}

/// What a line of a graph says.
pub fn graph_line(line: &[u8]) -> GraphLine
    ensures { result ≡ read_graph_line (graph_line_in line.now) }
{
    let Some((first, rest)) = next_field(line) else {
        return GraphLine::Skipped;
    };
    if begins_comment(first) {
        GraphLine::Skipped
    } else if first == b"p".as_slice() {
        problem(rest)
    } else if first == b"a".as_slice() {
        arc(rest)
    } else {
        GraphLine::Formless
    }
}

/// What stands behind `p`.
fn problem(rest: &[u8]) -> GraphLine
    ensures { result ≡ read_graph_line (problem_of (fields_of rest.now)) }
{
    let Some((sp, nodes, roads)) = three_fields(rest) else {
        return GraphLine::Formless;
    };
    if sp != b"sp".as_slice() {
        return GraphLine::Formless;
    }
    let (Some(nodes), Some(roads)) = (capped_number(nodes), capped_number(roads)) else {
        return GraphLine::Formless;
    };
    GraphLine::Problem { nodes, roads }
}

/// What stands behind `a`.
fn arc(rest: &[u8]) -> GraphLine
    ensures { result ≡ read_graph_line (arc_of (fields_of rest.now)) }
{
    let Some((from, to, weight)) = three_fields(rest) else {
        return GraphLine::Formless;
    };
    let (Some(from), Some(to), Some(weight)) = (
        capped_number(from),
        capped_number(to),
        capped_number(weight),
    ) else {
        return GraphLine::Formless;
    };
    GraphLine::Arc { from, to, weight }
}

/// What a line of places says.
pub fn place_line(line: &[u8]) -> PlaceLine
    ensures { result ≡ read_place_line (place_line_in line.now) }
{
    let Some((first, rest)) = next_field(line) else {
        return PlaceLine::Skipped;
    };
    if begins_comment(first) {
        PlaceLine::Skipped
    } else if first == b"p".as_slice() {
        header(rest)
    } else if first == b"v".as_slice() {
        place(rest)
    } else {
        PlaceLine::Formless
    }
}

/// What stands behind `p`.
fn header(rest: &[u8]) -> PlaceLine
    ensures { result ≡ read_place_line (header_of (fields_of rest.now)) }
{
    let Some((aux, rest)) = next_field(rest) else {
        return PlaceLine::Formless;
    };
    let Some((sp, co, nodes)) = three_fields(rest) else {
        return PlaceLine::Formless;
    };
    if aux != b"aux".as_slice() || sp != b"sp".as_slice() || co != b"co".as_slice() {
        return PlaceLine::Formless;
    }
    match capped_number(nodes) {
        Some(nodes) => PlaceLine::Header { nodes },
        None => PlaceLine::Formless,
    }
}

/// What stands behind `v`.
fn place(rest: &[u8]) -> PlaceLine
    ensures { result ≡ read_place_line (place_of (fields_of rest.now)) }
{
    let Some((node, x, y)) = three_fields(rest) else {
        return PlaceLine::Formless;
    };
    let (Some(node), Some(x), Some(y)) = (capped_number(node), coordinate_in(x), coordinate_in(y))
    else {
        return PlaceLine::Formless;
    };
    PlaceLine::Place { node, x, y }
}

/// The three fields of a line that has no other ones.
fn three_fields(line: &[u8]) -> Option<(&[u8], &[u8], &[u8])>
    ensures some { IfSome result (λ f. fields_of line.now ≡ f.0.now ∷ f.1.now ∷ f.2.now ∷ []) }
    ensures none { IfNone result (length (fields_of line.now) ≡ 3 → ⊥) }
{
    let (first, rest) = next_field(line)?;
    let (second, rest) = next_field(rest)?;
    let (third, rest) = next_field(rest)?;
    match next_field(rest) {
        None => Some((first, second, third)),
        Some(_) => None,
    }
}

/// The number that digits spell, with or without one `-` before them. None exactly where the field is no such number.
fn coordinate_in(field: &[u8]) -> Option<Coordinate>
    ensures { result ≡ coordinate_of field.now }
{
    match field {
        [b'-', digits @ ..] => Some(signed(true, capped_number(digits)?)),
        _ => Some(signed(false, capped_number(field)?)),
    }
}

/// The number of that size.
fn signed(negative: bool, size: u64) -> Coordinate
    ensures { result ≡ read_coordinate (cond negative (neg_ℤ (pos size)) (pos size)) }
{
    if size > LARGEST_COORDINATE {
        return Coordinate::Outside;
    }
    let size = size as i64;
    Coordinate::Within(if negative { -size } else { size })
}
