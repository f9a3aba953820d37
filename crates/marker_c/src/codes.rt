//! The numbers of codes, as `include/marker.h` names them.

pub(crate) const OK: u32 = 0;

pub(crate) const MEMORY: u32 = 1;

pub(crate) const NOT_OPEN: u32 = 2;

pub(crate) const IN_USE: u32 = 3;

pub(crate) const NOT_UTF8: u32 = 4;

pub(crate) const BAD_DOCUMENT: u32 = 5;

pub(crate) const BAD_LINE: u32 = 6;

pub(crate) const NOT_AN_EDIT: u32 = 7;

pub(crate) const NO_PLACE: u32 = 8;

pub(crate) const INTO_ITSELF: u32 = 9;

pub(crate) const UNLISTED: u32 = 10;
