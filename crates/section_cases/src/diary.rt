//! A table whose home values are the lists of their own notes.

ghost use Rattle.step_law.specs.Settings.{Setting};
ghost use Rattle.std.specs.Prelude.{◌≡◌, ℕ, ◌<◌, ◌≤◌, ◌+◌, ◌-◌, ◌++◌, ◌∷◌, [], length, Some, None, OnOk, IfOk, All, List};
ghost use Rattle.pool_law.specs.declared.note.Noted.{Noted};
ghost use Rattle.pool_table.specs.Opened.{IsFirstSeat};

use pool_law::{Level, Noted, Shape};
use pool_table::{Layout, PoolSeat, PoolTable, Section};
use size_classes::DEFAULT_PAGE;
use std::alloc::{AllocError, Global};
use step_law::Told;

/// A home value that keeps each note made on it.
#[derive(Drop)]
pub(crate) struct Diary {
    pub(crate) notes: Vec<Noted>,
}

impl Told for Diary {
    ghost use Rattle.std.specs.Prelude.{◌≡◌, ⊤};

    type Note = Noted;

    ghost stands = { λ object setting notes d. d.notes.items ≡ notes };

    ghost may_follow = { λ d notes n. ⊤ };

    ghost gains = { λ place generation n. 0 };

    ghost losses = { λ place generation n. 0 };

    ghost decides = { λ object setting x xs ys a b n f. f };

    ghost use Rattle.step_law.specs.Settings.{no_setting};

    ghost settles = { λ values. no_setting };
}

// Two lanes with one handle each.
pub(crate) const LAYOUT: Layout = Layout {
    shape: Shape {
        page: DEFAULT_PAGE,
        order: 3,
        arenas: 1,
        chunks: 1,
        handles: 1,
        lanes: 2,
        level: Level::Disabled,
        interval: 128,
    },
    moves: 4,
    turns: 8,
};

// A home value for each of 85 objects: one arena, 80 caches, two bins, two root places.
fn empty_homes(alloc: Global) -> Result<Vec<Diary>, AllocError>
    ensures many { IfOk result (λ v. length v.items ≡ 85) }
    ensures empty { IfOk result (λ v. All (λ d. d.notes.items ≡ []) v.items) }
{
    let mut homes = Vec::new(alloc);
    for _made in 0..85usize {
        homes.push(Diary {
            notes: Vec::new(alloc),
        })?;
    }
    Ok(homes)
}

// A new table with the seats of its two lanes.
pub(crate) struct Opened {
    pub(crate) table: PoolTable<Diary>,
    pub(crate) first: PoolSeat<Diary>,
    pub(crate) second: PoolSeat<Diary>,
}

pub(crate) fn open_table(alloc: Global) -> Result<Opened, AllocError>
    ensures layout { IfOk result (λ o. o.table.layout ≡ LAYOUT) }
    ensures first { IfOk result (λ o. (g : Setting) × IsFirstSeat LAYOUT g 0 o.table o.first) }
    ensures second { IfOk result (λ o. (g : Setting) × IsFirstSeat LAYOUT g 1 o.table o.second) }
{
    let homes = empty_homes(alloc)?;
    let Ok((table, mut seats)) = PoolTable::new(alloc, LAYOUT, homes) else {
        return Err(AllocError);
    };
    let Some(second) = seats.pop() else {
        unreachable!()
    };
    let Some(first) = seats.pop() else {
        unreachable!()
    };
    seats.destroy_empty();
    Ok(Opened {
        table,
        first,
        second,
    })
}

// Writes the note into the home value.
pub(crate) fn write(section: &mut Section<Diary>, noted: Noted) -> Result<(), AllocError>
    ensures written { OnOk result
        (section.new.home.notes.items ≡ section.old.home.notes.items ++ noted ∷ []) }
    ensures same { (section.new.object ≡ section.old.object)
        × (section.new.slot ≡ section.old.slot) }
{
    let home = Section::home(section);
    let Ok(()) = home.notes.push(noted) else {
        return Err(AllocError);
    };
    Ok(())
}

// How many notes there are in the home value.
pub(crate) fn count(section: &mut Section<Diary>) -> usize
    ensures same { section.new ≡ section.old }
    ensures count { result ≡ length section.old.home.notes.items }
{
    Section::home(section).notes.len()
}
