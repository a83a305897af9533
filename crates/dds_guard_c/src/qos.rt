//! The struct by which a C program learns the QoS of an endpoint.

/// `ddscheck_qos` of the header. The kinds have the numbers that DDS gives them. A limit of 0 is none, and so is the
/// depth of KEEP_ALL, which doesn't look at it.
#[repr(C)]
#[derive(Clone, Copy)]
pub struct Qos {
    /// 0 VOLATILE, 1 TRANSIENT_LOCAL, 2 TRANSIENT, 3 PERSISTENT.
    pub durability: u32,
    /// 0 BEST_EFFORT, 1 RELIABLE.
    pub reliability: u32,
    /// 0 KEEP_LAST, 1 KEEP_ALL.
    pub history: u32,
    pub depth: u32,
    pub max_samples: u32,
    pub max_instances: u32,
    pub max_samples_per_instance: u32,
}
