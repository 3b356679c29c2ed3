//! The sections in which the values of units are resolved.

use crate::{DebugLineStr, DebugStrOffsets};
use gimli_base::{DebugAddr, DebugStr};
use gimli_lists::{LocationLists, RangeLists};

/// The sections in which the values of units are resolved. Who has none of a kind hands over one
/// without bytes: a value that leads into it is refused.
#[derive(Clone, Copy, Debug, Default, Drop)]
pub struct DwarfSections<R> {
    /// `.debug_addr`, that of the program also for units of a split file.
    pub debug_addr: DebugAddr<R>,
    /// `.debug_str`, or `.debug_str.dwo`.
    pub debug_str: DebugStr<R>,
    /// `.debug_line_str`.
    pub debug_line_str: DebugLineStr<R>,
    /// `.debug_str_offsets`, or `.debug_str_offsets.dwo`.
    pub debug_str_offsets: DebugStrOffsets<R>,
    /// `.debug_str` of the supplementary file, as `dwz` makes one.
    pub debug_str_sup: DebugStr<R>,
    /// The sections of range lists. A split file of version 4 has none: they are the program's.
    pub ranges: RangeLists<R>,
    /// The sections of location lists.
    pub locations: LocationLists<R>,
}
