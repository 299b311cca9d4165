//! More heads for the entries of chains.

ghost use Rattle.std.specs.Prelude.{◌≡◌, ◌*◌, ◌≤◌, ◌<◌, ◌^◌, IsOk, OnOk, length};
ghost use Rattle.pipe_chains.specs.Layout.{AreLinked, leads_of, marks_of};

use crate::heads::Heads;
use crate::link::{Link, link_all};
use std::alloc::AllocError;

/// Makes heads for so many entries, and links by them those that are there. Where memory is wanting,
/// all stays as it was.
#[inline(never)]
fn widen(heads: &mut Heads, links: &mut [Link], entries: usize) -> Result<(), AllocError>
    requires linked { AreLinked heads.old links.old }
    requires more { length links.old ≤ entries }
    requires few { entries < 2 ^ 32 }
    ensures linked { AreLinked heads.new links.new }
    ensures marks { marks_of links.new ≡ marks_of links.old }
    ensures leads { leads_of links.new ≡ leads_of links.old }
    ensures kept { length heads.old.told.items ≤ length heads.new.told.items }
    ensures ok { OnOk result (entries * 2 ≤ length heads.new.told.items) }
{
    *heads = heads.wider(entries)?;
    link_all(heads, links);
    Ok(())
}

/// Sees to it that there are heads for so many entries, and that those that are there are linked by
/// them. Where memory is wanting, all stays as it was.
#[inline(always)]
pub(crate) fn see_to_heads(
    heads: &mut Heads,
    links: &mut [Link],
    entries: usize,
) -> Result<(), AllocError>
    requires linked { AreLinked heads.old links.old }
    requires more { length links.old ≤ entries }
    requires few { entries < 2 ^ 32 }
    ensures linked { AreLinked heads.new links.new }
    ensures marks { marks_of links.new ≡ marks_of links.old }
    ensures leads { leads_of links.new ≡ leads_of links.old }
    ensures kept { length heads.old.told.items ≤ length heads.new.told.items }
    ensures ok { OnOk result (entries * 2 ≤ length heads.new.told.items) }
    ensures succeeds { entries * 2 ≤ length heads.old.told.items → IsOk result }
{
    if heads.told.len() / 2 >= entries {
        return Ok(());
    }
    widen(heads, links, entries)
}
