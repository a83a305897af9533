//! Deployments and their certificates.

/// Two applications that answer each other: the first may have three samples under way.
pub const PING: &str = r#"version = 1
participants = [{ name = "p1", domain = 0 }, { name = "p2", domain = 0 }]
topics = [
  { name = "ping", type = "Num", keys = ["k"] },
  { name = "pong", type = "Num", keys = ["k"] },
]
writers = [
  { name = "ping_w", participant = "p1", topic = "ping", history = "KEEP_ALL" },
  { name = "pong_w", participant = "p2", topic = "pong", history = "KEEP_ALL" },
]
applications = [
  { name = "a1", participant = "p1", writers = ["ping_w"], readers = ["pong_r"] },
  { name = "a2", participant = "p2", writers = ["pong_w"], readers = ["ping_r"] },
]
connections = [{ writer = "ping_w", reader = "ping_r" }, { writer = "pong_w", reader = "pong_r" }]

[[readers]]
name = "ping_r"
participant = "p2"
topic = "ping"
reliability = "RELIABLE"
history = "KEEP_ALL"
max_samples_per_instance = 3

[[readers]]
name = "pong_r"
participant = "p1"
topic = "pong"
reliability = "RELIABLE"
history = "KEEP_ALL"
max_samples_per_instance = 3

[[rules]]
name = "serve"
application = "a1"
takes = [{ reader = "pong_r", key = "k", count = 1 }]
writes = [{ writer = "ping_w", key = "k", count = 1 }]
start = 3

[[rules]]
name = "answer"
application = "a2"
takes = [{ reader = "ping_r", key = "k", count = 1 }]
writes = [{ writer = "pong_w", key = "k", count = 1 }]
"#;

/// The certificate of PING: each sample, each take and each permit weighs one.
pub const PING_CERT: &str = r#"version = 1
bounds = [
  { reader = "ping_r", key = "k", row = "m", bound = 3 },
  { reader = "pong_r", key = "k", row = "m", bound = 3 },
]

[[rows]]
name = "m"
samples = [{ reader = "ping_r", key = "k", weight = 1 }, { reader = "pong_r", key = "k", weight = 1 }]
takes = [{ reader = "ping_r", key = "k", weight = 1 }, { reader = "pong_r", key = "k", weight = 1 }]
permits = [{ writer = "ping_w", key = "k", weight = 1 }, { writer = "pong_w", key = "k", weight = 1 }]
"#;

/// Two applications that answer each other, where one sample in one direction stands for two in the other, as in
/// `examples/loop`.
pub const LOOP: &str = r#"version = 1
participants = [{ name = "p1", domain = 0 }, { name = "p2", domain = 0 }]
topics = [
  { name = "ta", type = "Num", keys = ["k"] },
  { name = "tb", type = "Num", keys = ["k"] },
]
writers = [
  { name = "wa", participant = "p1", topic = "ta", history = "KEEP_ALL" },
  { name = "wb", participant = "p2", topic = "tb", history = "KEEP_ALL" },
]
applications = [
  { name = "a1", participant = "p1", writers = ["wa"], readers = ["rb"] },
  { name = "a2", participant = "p2", writers = ["wb"], readers = ["ra"] },
]
connections = [{ writer = "wa", reader = "ra" }, { writer = "wb", reader = "rb" }]

[[readers]]
name = "ra"
participant = "p2"
topic = "ta"
reliability = "RELIABLE"
history = "KEEP_ALL"
max_samples_per_instance = 4

[[readers]]
name = "rb"
participant = "p1"
topic = "tb"
reliability = "RELIABLE"
history = "KEEP_ALL"
max_samples_per_instance = 2

[[rules]]
name = "to_a"
application = "a1"
takes = [{ reader = "rb", key = "k", count = 1 }]
writes = [{ writer = "wa", key = "k", count = 2 }]
start = 2

[[rules]]
name = "to_b"
application = "a2"
takes = [{ reader = "ra", key = "k", count = 2 }]
writes = [{ writer = "wb", key = "k", count = 1 }]
start = 0
"#;

/// The certificate of LOOP: what stands for two samples weighs two.
pub const LOOP_CERT: &str = r#"version = 1
bounds = [
  { reader = "ra", key = "k", row = "m", bound = 4 },
  { reader = "rb", key = "k", row = "m", bound = 2 },
]

[[rows]]
name = "m"
samples = [{ reader = "ra", key = "k", weight = 1 }, { reader = "rb", key = "k", weight = 2 }]
takes = [{ reader = "ra", key = "k", weight = 1 }, { reader = "rb", key = "k", weight = 2 }]
permits = [{ writer = "wa", key = "k", weight = 1 }, { writer = "wb", key = "k", weight = 2 }]
"#;

/// A writer that may write three samples, and a reader that has room for three.
pub const SMALL: &str = r#"version = 1
participants = [{ name = "p", domain = 0 }, { name = "q", domain = 0 }]
topics = [{ name = "t", type = "Num", keys = ["k"] }]
writers = [{ name = "w", participant = "p", topic = "t", history = "KEEP_ALL" }]
applications = [
  { name = "aw", participant = "p", writers = ["w"] },
  { name = "ar", participant = "q", readers = ["r"] },
]
connections = [{ writer = "w", reader = "r" }]

[[readers]]
name = "r"
participant = "q"
topic = "t"
reliability = "RELIABLE"
history = "KEEP_ALL"
max_samples_per_instance = 3

[[rules]]
name = "seed"
application = "aw"
writes = [{ writer = "w", key = "k", count = 1 }]
start = 3
"#;

/// The certificate of SMALL.
pub const SMALL_CERT: &str = r#"version = 1
bounds = [{ reader = "r", key = "k", row = "m", bound = 3 }]

[[rows]]
name = "m"
samples = [{ reader = "r", key = "k", weight = 1 }]
takes = [{ reader = "r", key = "k", weight = 1 }]
permits = [{ writer = "w", key = "k", weight = 1 }]
"#;

/// A writer that may write one sample of each of two keys, and a reader that has room for two of each.
pub const TWO: &str = r#"version = 1
participants = [{ name = "p", domain = 0 }, { name = "q", domain = 0 }]
topics = [{ name = "t", type = "Num", keys = ["a", "b"] }]
writers = [{ name = "w", participant = "p", topic = "t", history = "KEEP_ALL" }]
applications = [
  { name = "aw", participant = "p", writers = ["w"] },
  { name = "ar", participant = "q", readers = ["r"] },
]
connections = [{ writer = "w", reader = "r" }]

[[readers]]
name = "r"
participant = "q"
topic = "t"
reliability = "RELIABLE"
history = "KEEP_ALL"
max_samples_per_instance = 2

[[rules]]
name = "seed"
application = "aw"
writes = [{ writer = "w", key = "a", count = 1 }, { writer = "w", key = "b", count = 1 }]
start = 1
"#;

/// The certificate of TWO. Its one row counts the samples of both keys together.
pub const TWO_CERT: &str = r#"version = 1
bounds = [
  { reader = "r", key = "a", row = "m", bound = 2 },
  { reader = "r", key = "b", row = "m", bound = 2 },
]

[[rows]]
name = "m"
samples = [{ reader = "r", key = "a", weight = 1 }, { reader = "r", key = "b", weight = 1 }]
takes = [{ reader = "r", key = "a", weight = 1 }, { reader = "r", key = "b", weight = 1 }]
permits = [{ writer = "w", key = "a", weight = 1 }, { writer = "w", key = "b", weight = 1 }]
"#;
