//! The law of a guard, over the definitions alone.
ghost use Rattle.dds_guard.specs.Following.{GoesOnFollowing};

/// A guard follows a world of a run where its counts are the world's at the writers of its application and the keys
/// that the application takes. It does so once it is opened, and goes on so after each take, firing and paid write
/// that it allows, and after each move that can be made elsewhere.
pub fn follows()
    ensures { GoesOnFollowing }
{}
