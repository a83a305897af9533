//! Certificates that are proposed for the files, as text.

/// A certificate with a row for each of PING's readers, in which all that is under way weighs 5040.
pub const PING_PROPOSED: &str = r#"version = 1

[[rows]]
name = "w0"
samples = [
  { reader = "ping_r", key = "k", weight = 5040 },
  { reader = "pong_r", key = "k", weight = 5040 },
]
takes = [
  { reader = "ping_r", key = "k", weight = 5040 },
  { reader = "pong_r", key = "k", weight = 5040 },
]
permits = [
  { writer = "ping_w", key = "k", weight = 5040 },
  { writer = "pong_w", key = "k", weight = 5040 },
]

[[rows]]
name = "w1"
samples = [
  { reader = "ping_r", key = "k", weight = 5040 },
  { reader = "pong_r", key = "k", weight = 5040 },
]
takes = [
  { reader = "ping_r", key = "k", weight = 5040 },
  { reader = "pong_r", key = "k", weight = 5040 },
]
permits = [
  { writer = "ping_w", key = "k", weight = 5040 },
  { writer = "pong_w", key = "k", weight = 5040 },
]

[[bounds]]
reader = "ping_r"
key = "k"
row = "w0"
bound = 3

[[bounds]]
reader = "pong_r"
key = "k"
row = "w1"
bound = 3
"#;

/// A certificate of SMALL with room and permits for two, where no take weighs anything.
pub const SMALL_PROPOSED: &str = r#"version = 1

[[rows]]
name = "w0"
samples = [
  { reader = "r", key = "k", weight = 5040 },
]
takes = []
permits = [
  { writer = "w", key = "k", weight = 5040 },
]

[[bounds]]
reader = "r"
key = "k"
row = "w0"
bound = 2
"#;
