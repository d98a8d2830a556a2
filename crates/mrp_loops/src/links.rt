//! Lines, with a list for each item of the lines to it.

ghost use Rattle.std.specs.Prelude.{◌≡◌, IfOk, map};
ghost use Rattle.mrp_loops.specs.Links.{turned};

use crate::line::Line;
use mrp_qty::NoMemory;
use std::alloc::Global;

// Lines, and lists of the lines to each item: its last line, and for each line the one before it to the
// same item.
#[derive(Drop)]
pub(crate) struct Links {
    lines: Vec<Line>,
    last: Vec<Option<usize>>,
    previous: Vec<Option<usize>>,
}

// The lines with their parents and components exchanged.
fn turned_lines(alloc: Global, lines: &[Line]) -> Result<Vec<Line>, NoMemory>
    ensures { IfOk result (λ turned_lines. turned_lines.items ≡ map turned lines.now) }
{
    let turned = lines.iter().map(|line| line.turned()).collect(alloc)?;
    Ok(turned)
}

impl Links {
    ghost use Rattle.std.specs.Prelude.{◌≡◌, ◌<◌, IfOk, length, map};
    ghost use Rattle.mrp_loops.specs.Needs.{AreWithin, line_at};
    ghost use Rattle.mrp_loops.specs.Links.{AreLinks, place_at, turned};

    // The lists of these lines, for a number of items.
    fn of(alloc: Global, count: usize, lines: Vec<Line>) -> Result<Links, NoMemory>
        requires { AreWithin count lines.items }
        ensures links { IfOk result (AreLinks count) }
        ensures lines { IfOk result (λ links. links.lines.items ≡ lines.items) }
    {
        let mut last = vec![in alloc; None; count]?;
        let mut previous = Vec::with_capacity(alloc, lines.len())?;
        for (place, line) in lines.iter().enumerate() {
            let before = last[line.component];
            previous.push(before)?;
            last[line.component] = Some(place);
        }
        Ok(Links {
            lines,
            last,
            previous,
        })
    }

    // From items to their parents.
    pub(crate) fn up(alloc: Global, count: usize, lines: &[Line]) -> Result<Links, NoMemory>
        requires { AreWithin count lines.now }
        ensures links { IfOk result (AreLinks count) }
        ensures lines { IfOk result (λ links. links.lines.items ≡ lines.now) }
    {
        let lines = lines.iter().copied().collect(alloc)?;
        Links::of(alloc, count, lines)
    }

    // From items to their components: each line's parent and component are exchanged.
    pub(crate) fn down(alloc: Global, count: usize, lines: &[Line]) -> Result<Links, NoMemory>
        requires { AreWithin count lines.now }
        ensures links { IfOk result (AreLinks count) }
        ensures lines { IfOk result (λ links. links.lines.items ≡ map turned lines.now) }
    {
        Links::of(alloc, count, turned_lines(alloc, lines)?)
    }

    // For each item the place of the last line to it.
    pub(crate) fn lasts(&self, alloc: Global) -> Result<Vec<Option<usize>>, NoMemory>
        ensures { IfOk result (λ lasts. lasts.items ≡ self.now.last.items) }
    {
        let lasts = self.last.iter().copied().collect(alloc)?;
        Ok(lasts)
    }

    // The place of the last line to an item.
    pub(crate) fn last(&self, item: usize) -> Option<usize>
        requires { item < length self.now.last.items }
        ensures { result ≡ place_at self.now.last.items item }
    {
        self.last[item]
    }

    // The place of the line before this one to the same item.
    pub(crate) fn previous(&self, place: usize) -> Option<usize>
        requires { place < length self.now.previous.items }
        ensures { result ≡ place_at self.now.previous.items place }
    {
        self.previous[place]
    }

    // The parent of a line.
    pub(crate) fn parent(&self, place: usize) -> usize
        requires { place < length self.now.lines.items }
        ensures { result ≡ (line_at self.now.lines.items place).parent }
    {
        self.lines[place].parent
    }
}
