ghost use Rattle.policies.specs.Theorems.{KeysLawful, PosixPreferred, FirstPreferred, BestUnique};

// The order of every faithful key keeps both laws.
pub fn keys_are_lawful()
    ensures { KeysLawful }
{}

// The POSIX relation derives exactly the reading that the POSIX order prefers.
pub fn posix_is_preferred()
    ensures { PosixPreferred }
{}

// The first-and-longest relation derives exactly the reading that its order prefers.
pub fn first_longest_is_preferred()
    ensures { FirstPreferred }
{}

// A name has at most one best reading by a rule, whatever the policy.
pub fn best_is_unique()
    ensures { BestUnique }
{}
