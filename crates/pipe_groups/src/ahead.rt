//! A look at groups that rows are about to come to.

use crate::groups::Groups;

impl Groups {
    /// Reads what a row needs of the group at an index, if there is one: its entry, its key's last byte and
    /// its running aggregates. Nothing changes. A processor that reads it of several groups at once waits
    /// once for all; what is answered says that it was read, and no more.
    #[inline(always)]
    pub fn look(&self, index: usize) -> usize {
        let mut seen = self.states.look(index);
        if let Some(entry) = self.entries.get(index) {
            seen = seen.wrapping_add(entry.end);
            if let Some(byte) = self.bytes.get(entry.end.wrapping_sub(1)) {
                seen = seen.wrapping_add(*byte as usize);
            }
        }
        seen
    }
}
