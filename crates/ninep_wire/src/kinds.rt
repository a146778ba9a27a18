//! The types of messages (intro(5)): T for a client's, R for the server's answer.

pub const T_VERSION: u8 = 100;

pub const T_AUTH: u8 = 102;

pub const T_ATTACH: u8 = 104;

pub const T_FLUSH: u8 = 108;

pub const T_WALK: u8 = 110;

pub const T_OPEN: u8 = 112;

pub const T_CREATE: u8 = 114;

pub const T_READ: u8 = 116;

pub const T_WRITE: u8 = 118;

pub const T_CLUNK: u8 = 120;

pub const T_REMOVE: u8 = 122;

pub const T_STAT: u8 = 124;

pub const T_WSTAT: u8 = 126;

pub const R_VERSION: u8 = 101;

pub const R_ATTACH: u8 = 105;

pub const R_ERROR: u8 = 107;

pub const R_FLUSH: u8 = 109;

pub const R_WALK: u8 = 111;

pub const R_OPEN: u8 = 113;

pub const R_CREATE: u8 = 115;

pub const R_READ: u8 = 117;

pub const R_WRITE: u8 = 119;

pub const R_CLUNK: u8 = 121;

pub const R_REMOVE: u8 = 123;

pub const R_STAT: u8 = 125;

pub const R_WSTAT: u8 = 127;
