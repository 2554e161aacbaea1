ghost use Rattle.std.specs.Prelude.{◌<◌, ◌≤◌, length};

#[cfg(test)]
mod tests {
    use std::alloc::Global;
    use std::process::Abort;
    use std::test::Fail;
    use version_array::{MOST_PLACES, NoMemory, Shared, VersionArray};

    const PLACES: usize = 70_000;

    const CHANGES: usize = 1_000;

    fn holds(version: &VersionArray<u32>, values: &[u32]) -> bool {
        if version.len() != values.len() {
            return false;
        }
        for (place, value) in values.iter().enumerate() {
            if version.get(place) != value {
                return false;
            }
        }
        true
    }

    fn crosses_threads<T: Send + Sync>(_value: &T) {}

    fn versions_cross_threads<T: Send + Sync>(version: &VersionArray<T>) {
        crosses_threads(version);
    }

    fn check_share(rt: &impl Abort, version: &VersionArray<u32>) -> Result<(), NoMemory> {
        let same = version.share()?;
        assert!(rt; holds(&same, &[7, 9, 7]));
        versions_cross_threads(&same);
        Ok(())
    }

    fn check_change(rt: &impl Abort, alloc: Global, old: &VersionArray<u32>) -> Result<(), NoMemory>
        requires { 1 < length old.now }
    {
        assert!(rt; holds(old, &[7, 7, 7]));
        let new = old.with(alloc, 1, 9)?;
        assert!(rt; holds(&new, &[7, 9, 7]));
        assert!(rt; holds(old, &[7, 7, 7]));
        check_share(rt, &new)
    }

    #[test]
    fn the_old_version_stays(rt: HostRuntime) -> Result<(), Fail> {
        let old = VersionArray::filled(rt.alloc(), 3, 7u32)?;
        check_change(&rt, rt.alloc(), &old)?;
        Ok(())
    }

    #[test]
    fn numbers_are_shared(rt: HostRuntime) -> Result<(), Fail> {
        assert_eq!(rt; u32::MAX.share(rt.alloc())?, u32::MAX);
        assert_eq!(rt; u64::MAX.share(rt.alloc())?, u64::MAX);
        Ok(())
    }

    // The place of a change: no two changes are at one place.
    fn place_of(change: usize) -> usize
        requires { change < CHANGES }
        ensures { result < PLACES }
    {
        change * 7919 % PLACES
    }

    fn compare(rt: &impl Abort, version: &VersionArray<u32>, changes: usize) {
        assert!(rt; changes <= CHANGES);
        assert_eq!(rt; version.len(), PLACES);
        for step in 0..100 {
            let change = (changes + 10 * step) % CHANGES;
            let expected = if change < changes {
                change as u32 + 1
            } else {
                0
            };
            assert_eq!(rt; *version.get(place_of(change)), expected);
        }
    }

    #[test]
    fn a_thousand_versions(rt: HostRuntime) -> Result<(), Fail> {
        let mut versions = Vec::new(rt.alloc());
        let mut latest = VersionArray::filled(rt.alloc(), PLACES, 0u32)?;
        for change in 0..CHANGES {
            assert_eq!(rt; latest.len(), PLACES);
            let next = latest.with(rt.alloc(), place_of(change), change as u32 + 1)?;
            versions.push(latest)?;
            latest = next;
        }
        versions.push(latest)?;
        for (changes, version) in versions.iter().enumerate() {
            compare(&rt, version, changes);
        }
        Ok(())
    }

    // Whether each place holds a 5, but for the last, which holds this.
    fn ends_with(version: &VersionArray<u64>, last: u64) -> bool {
        let len = version.len();
        for place in 0..len {
            let wanted = if place + 1 == len { last } else { 5 };
            if *version.get(place) != wanted {
                return false;
            }
        }
        true
    }

    fn check_last(rt: &impl Abort, alloc: Global, old: &VersionArray<u64>) -> Result<(), NoMemory>
        requires { 0 < length old.now }
    {
        let new = old.with(alloc, old.len() - 1, 6)?;
        assert_eq!(rt; new.len(), old.len());
        assert!(rt; ends_with(&new, 6));
        assert!(rt; ends_with(old, 5));
        Ok(())
    }

    fn changed_at_its_end(rt: &impl Abort, alloc: Global, len: usize) -> Result<(), NoMemory>
        requires { len ≤ MOST_PLACES }
    {
        let old = VersionArray::filled(alloc, len, 5u64)?;
        assert_eq!(rt; old.len(), len);
        assert!(rt; ends_with(&old, 5));
        if len > 0 {
            check_last(rt, alloc, &old)?;
        }
        Ok(())
    }

    #[test]
    fn no_place_is_lost(rt: HostRuntime) -> Result<(), Fail> {
        for len in [0, 1, 127, 128, 129, 16_384, 16_385, MOST_PLACES] {
            changed_at_its_end(&rt, rt.alloc(), len)?;
        }
        Ok(())
    }
}
