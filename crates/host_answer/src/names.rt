// The names that C asks by, as include/honeyplank.h numbers them. Numbers and no enum: what C asks by is any number, of which all but these tell
// nothing, and an enum would want each of these numbers again, in its conversion and in a definition of that.

// of every entry that is asked by a name
pub const RESULT: u32 = 0;

pub const CARRIED: u32 = 1;

pub const CARRIED_SECOND: u32 = 2;

// of an answer
pub const COUNT: u32 = 3;

pub const DAY_1: u32 = 4;

pub const DAY_5: u32 = 8;

pub const REACH: u32 = 9;

pub const DENOMINATOR: u32 = 10;

pub const ADJUSTMENT: u32 = 11;

// of a file, of an event in it and of a move
pub const FILE_PARTICIPATION: u32 = 12;

pub const FILE_PORTFOLIO: u32 = 13;

pub const FILE_FIRST: u32 = 14;

pub const FILE_DAYS: u32 = 15;

pub const FILE_EVENTS: u32 = 16;

pub const FILE_MOVES: u32 = 21;

pub const EVENT_DAY: u32 = 17;

pub const EVENT_START: u32 = 18;

pub const EVENT_END: u32 = 19;

pub const EVENT_NOTICE: u32 = 20;

pub const EVENT_METHOD: u32 = 24;

pub const MOVE_FROM: u32 = 22;

pub const MOVE_TO: u32 = 23;

// of a working: of its window, of its adjustment, of a day before the event and of a ruler quarter, each from the first name to the last
pub const WORKING_GROUP: u32 = 25;

pub const WORKING_TAKEN: u32 = 29;

pub const WORKING_END: u32 = 30;

pub const WORKING_B: u32 = 32;

pub const BACK_DAY: u32 = 33;

pub const BACK_CHOSEN: u32 = 38;

pub const QUARTER_S: u32 = 39;

pub const QUARTER_NUMERATOR: u32 = 40;

// of an overlap
pub const OVERLAP_HELD: u32 = 41;

pub const OVERLAP_SUFFICES: u32 = 42;

pub const OVERLAP_MORE: u32 = 43;

pub const OVERLAP_FROM: u32 = 44;

// of a day of the calendar
pub const CALENDAR_GROUP: u32 = 45;

pub const CALENDAR_FIXED: u32 = 46;

pub const CALENDAR_EASTER: u32 = 47;
