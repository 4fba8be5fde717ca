// What holds of every site and every source in memory.
ghost use Rattle.ts_site.specs.declared.memory_site.MemorySite.{MemorySite};
ghost use Rattle.ts_site.specs.declared.memory_source.MemorySource.{MemorySource};
ghost use Rattle.std.specs.Prelude.{IsTrue};
ghost use Rattle.ts_site.specs.MemorySite.{outside_of};
ghost use Rattle.ts_site.specs.MemorySource.{tells_left};
ghost use Rattle.ts_site.specs.Outside.{IsHonest};

/// They tell for good: at each moment, whatever calls were made and whichever of them failed.
pub fn memory_tells()
    ensures site { (site : MemorySite) → IsHonest (outside_of site) }
    ensures source { (source : MemorySource) → IsTrue (tells_left source) }
{}
