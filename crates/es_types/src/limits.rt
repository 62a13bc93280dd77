//! The numbers that requests, contexts and histories are bounded by. Contracts cite them by these names.

/// The last moment, in milliseconds.
pub const LAST_MOMENT: u64 = 1 << 53;

/// As many entries as a history may have. A context gets its number by an entry, so no number is greater.
pub const MOST_ENTRIES: u64 = 1 << 53;

/// As many shards as an index may have.
pub const INDEX_SHARDS: u32 = 1_024;

/// As many shards as all indexes may have together.
pub const ALL_SHARDS: u32 = 65_536;

/// As many rows and waiting operations as a shard may have together.
pub const SHARD_ROWS: usize = 2_147_483_647;

/// As many fields as a mapping may have.
pub const MAPPING_FIELDS: usize = 1_000;

/// As many keys as a sort may have.
pub const SORT_KEYS: usize = 64;

/// As many hits as a search may leave out and ask for together.
pub const WINDOW: u64 = 10_000;

/// As many hits as a search asks for that doesn't say.
pub const USUAL_SIZE: u32 = 10;

/// How many shards make a batch at least, and at most.
pub const LEAST_BATCH: u32 = 2;

pub const MOST_BATCH: u32 = 1_024;

/// How many make one where a search doesn't say.
pub const USUAL_BATCH: u32 = 512;

/// The longest time that anything is kept, ten days in milliseconds.
pub const LONGEST_KEEP: u64 = 864_000_000;

/// The longest time that a point in time is kept, a day in milliseconds.
pub const CONTEXT_KEEP: u64 = 86_400_000;

/// As many points in time as may be live at once, where nothing else is said.
pub const USUAL_PITS: u64 = 500;

/// As many bytes as the head of a request may have, and as many header lines.
pub const HEAD_BYTES: usize = 16_384;

pub const HEADER_LINES: usize = 100;

/// As many bytes as the body of a request may have.
pub const BODY_BYTES: u64 = 104_857_600;

/// As many bytes as are taken of a connection.
pub const CONNECTION_BYTES: u64 = 1 << 30;
