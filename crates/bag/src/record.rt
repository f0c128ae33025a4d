// What a bag asks of its records: a rank to leave by, and, for counting and taking by it, a tag.
ghost use Rattle.std.specs.Prelude.{◌≡◌, Bool, true, false};

// A record with a rank. Only the order of the ranks is owed: a total one, in which two records may have the same rank. So it is no `Ord`,
// by which such records would be equal.
pub trait Ranked: Copy {
    // Whether the first record has a lower rank than the second.
    ghost before: { Self → Self → Bool };

    fn ranks_before(&self, other: &Self) -> bool
        ensures { result ≡ before self.now other.now };

    // Of two records at most one has the lower rank.
    ghost asymmetric: { (x y : Self) → before x y ≡ true → before y x ≡ false };

    // Where y is not lower than x, and z not lower than y, z is not lower than x.
    ghost transitive: { (x y z : Self) → before y x ≡ false → before z y ≡ false → before z x ≡ false };
}

// A ranked record that has a tag too.
pub trait Tagged: Ranked {
    type Tag: Copy;

    // Whether a record has a tag.
    ghost tagged: { Self.Tag → Self → Bool };

    fn has_tag(&self, tag: Self::Tag) -> bool
        ensures { result ≡ tagged tag self.now };
}
