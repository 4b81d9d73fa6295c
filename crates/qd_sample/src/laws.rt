//! Laws of samples: each holds for all rows, and is the contract of a function that does nothing.
ghost use Rattle.qd_sample.specs.Laws.{EachBucketHasEachKey, SampleIsGrouping, StartsAreAll, SumsOfBuckets};

/// With a fill each bucket, from the first row's to the last row's, has one row for each key.
pub fn each_bucket_has_each_key()
    ensures law { EachBucketHasEachKey }
{}

/// Without a fill a sample is grouping by bucket and keys: the groups of each bucket's rows, each of them once.
pub fn sample_is_grouping()
    ensures law { SampleIsGrouping }
{}

/// The sums of all buckets are the sum of the whole.
pub fn sums_of_buckets()
    ensures law { SumsOfBuckets }
{}

/// The starts of the buckets between two moments are exactly the moments at which a bucket starts, rising.
pub fn starts_are_all()
    ensures law { StartsAreAll }
{}
