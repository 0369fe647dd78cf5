// Which page goes first from a cache.
ghost use Rattle.std.specs.Prelude.{◌≡◌};
ghost use Rattle.page_store.specs.Cached.{page_bytes_of};

use flash_tree::Key;
use page_store::PageCache;
use std::alloc::Global;
use std::num::NonZeroUsize;
use std::process::Abort;

/// The key of a chunk of an object.
fn key(object: u64, chunk: u64) -> Key {
    Key { object, chunk }
}

/// Puts a page of two bytes.
fn put(rt: &impl Abort, alloc: Global, cache: &mut PageCache, key: Key, byte: u8)
    requires { page_bytes_of cache.old ≡ 2 }
    ensures { page_bytes_of cache.new ≡ 2 }
{
    let mut page = vec![in alloc; byte; 2].expect(rt, "memory");
    cache.put(key, &mut page).expect(rt, "memory");
}

// A page that was found stays longer than one that was not.
#[test]
fn the_least_recently_used_goes_first(rt: HostRuntime) {
    let two = NonZeroUsize::new(2).expect(&rt, "two");
    let mut cache = PageCache::new(rt.alloc(), two, 2).expect(&rt, "memory");
    put(&rt, rt.alloc(), &mut cache, key(1, 0), 10);
    put(&rt, rt.alloc(), &mut cache, key(1, 1), 11);
    assert!(rt; cache.find(key(1, 0)));
    put(&rt, rt.alloc(), &mut cache, key(2, 0), 20);
    assert!(rt; !cache.find(key(1, 1)));
    assert!(rt; cache.page(key(1, 0)) == Some([10, 10].as_slice()));
    assert!(rt; cache.page(key(2, 0)) == Some([20, 20].as_slice()));
    assert!(rt; cache.held_count() == 2);
}
