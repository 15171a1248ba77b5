//! How much the server takes: each limit stands here, and code and definitions name it.

/// Domains that may stand.
pub const DOMAINS: usize = 1_024;
/// Projects that may stand.
pub const PROJECTS: usize = 65_536;
/// Users that may stand.
pub const USERS: usize = 65_536;
/// Groups that may stand.
pub const GROUPS: usize = 16_384;
/// Memberships that may stand.
pub const MEMBERS: usize = 262_144;
/// Roles that may stand.
pub const ROLES: usize = 1_024;
/// Implications that may stand.
pub const IMPLICATIONS: usize = 8_192;
/// Grants that may stand.
pub const GRANTS: usize = 262_144;
/// Trusts that may stand.
pub const TRUSTS: usize = 65_536;
/// Regions that may stand.
pub const REGIONS: usize = 256;
/// Services that may stand.
pub const SERVICES: usize = 1_024;
/// Endpoints that may stand.
pub const ENDPOINTS: usize = 8_192;
/// Revocations that may be live.
pub const EVENTS: usize = 262_144;
/// Revocations that may be live with those that users write for themselves, by ending a token, changing their own password or
/// deleting a trust: the rest is kept for those who must end what is not theirs.
pub const SELF_REVOCATIONS: usize = 131_072;
/// Keys that may be held.
pub const KEYS: usize = 32;
/// The fewest keys that a rotation may be told to leave: the primary one, and the staged.
pub const FEWEST_KEYS: u32 = 2;
/// The keys that a rotation leaves where nothing else is said.
pub const DEFAULT_KEYS: u32 = 3;
/// The highest index of a key.
pub const LAST_KEY_INDEX: u32 = 999_999_999;
/// Bytes of a file of a key.
pub const KEY_FILE_BYTES: usize = 64;

/// How far below its domain a project may lie.
pub const LEVELS: usize = 5;
/// How many trusts may follow below the first one.
pub const REDELEGATIONS: u32 = 3;
/// Roles of one trust.
pub const TRUST_ROLES: usize = 64;
/// Application credentials that may stand.
pub const APP_CREDS: usize = 65_536;
/// Secrets of one-time codes that may stand.
pub const SECRETS: usize = 65_536;
/// The fewest bytes of a secret of one-time codes.
pub const TOTP_SECRET_LEAST: usize = 10;
/// The most bytes of a secret of one-time codes.
pub const TOTP_SECRET_MOST: usize = 64;
/// One-time codes: those of six digits.
pub const CODES: u32 = 1_000_000;
/// Rules of the methods that one user has to log in by.
pub const MFA_RULES: usize = 16;
/// Uses that a trust may be given.
pub const USES: u64 = 9_007_199_254_740_992;

/// Bytes of an id.
pub const ID_BYTES: usize = 64;
/// Bytes of a name.
pub const NAME_BYTES: usize = 255;
/// Bytes of a description.
pub const DESCRIPTION_BYTES: usize = 4_096;
/// Bytes of the URL of an endpoint.
pub const ENDPOINT_URL_BYTES: usize = 2_048;
/// Bytes of a password.
pub const PASSWORD_BYTES: usize = 4_096;
/// Characters of a token.
pub const TOKEN_BYTES: usize = 1_024;
/// Rules of a policy, the default ones among them.
pub const POLICY_RULES: usize = 1_024;
/// Bytes of a rule of a policy.
pub const RULE_BYTES: usize = 4_096;
/// How deep a rule may be nested.
pub const RULE_DEPTH: u8 = 64;
/// Bytes of an opening file: 16 MiB.
pub const OPENING_BYTES: usize = 16_777_216;
/// Bytes of the public URL of an opening file.
pub const URL_BYTES: usize = 1_024;

/// Bytes of a request's first line and fields, with the empty line behind them.
pub const HEAD_BYTES: usize = 16_384;
/// Fields of a request.
pub const HEAD_FIELDS: usize = 64;
/// Bytes of a request's body: what an object with the longest texts takes.
pub const BODY_BYTES: usize = 114_688;
/// Requests that one connection carries; it is closed behind the last.
pub const CONNECTION_REQUESTS: u64 = 1_000_000;
/// Bytes of a line of `check`, without its line feed.
pub const CHECK_LINE_BYTES: usize = 1_100;
/// Lines of `check`.
pub const CHECK_LINES: u64 = 1_048_576;
/// Workers that may serve.
pub const WORKERS: u32 = 32;
/// Workers that serve where nothing else is said.
pub const DEFAULT_WORKERS: u32 = 4;
/// Connections after which a server may be told to stop.
pub const CONNECTIONS: u32 = 1_000_000;
/// The highest start of a drill, by which its members' roles are chosen.
pub const DRILL_START: u32 = 1_000_000;
/// Members that a drill makes.
pub const DRILL_MEMBERS: u32 = 2_000;

/// The shortest life of a token, in seconds.
pub const SHORTEST_LIFE: u64 = 60;
/// The longest life of a token, in seconds.
pub const LONGEST_LIFE: u64 = 604_800;
/// The life of a token where nothing else is set, in seconds.
pub const DEFAULT_LIFE: u64 = 3_600;
/// Rounds of a derived password.
pub const ROUNDS: u32 = 100_000;
/// Rounds where nothing else is set.
pub const DEFAULT_ROUNDS: u32 = 10_000;
/// The last second of the year 9999, in seconds since 1970-01-01T00:00:00Z: no later moment has a text.
pub const LAST_SECOND: u64 = 253_402_300_799;
/// The last reading of the clock that counts: a year before the last second, so that each expiry has a text.
pub const LAST_READING: u64 = 253_370_764_799;
/// How long past its expiry a token may still be asked for, in seconds: two days.
pub const EXPIRED_WINDOW: u64 = 172_800;
/// How long a revocation is kept beyond the life of the tokens that it ends, in seconds: the window, and half an hour.
pub const EVENT_GRACE: u64 = 174_600;
