//! The bytes that tell changes and values apart.

/// Changes.
pub(crate) const SET_TARGET: u8 = 1;

pub(crate) const DROP_TARGET: u8 = 2;

pub(crate) const SET_UNIT: u8 = 3;

pub(crate) const DROP_UNIT: u8 = 4;

/// Values.
pub(crate) const WHOLE: u8 = 0;

pub(crate) const FRACTION: u8 = 1;

pub(crate) const TEXT: u8 = 2;

pub(crate) const COMPOUND: u8 = 3;

pub(crate) const LIST: u8 = 4;

pub(crate) const TABLE: u8 = 5;
