//! Caches and bins: first in, first out.

ghost use Rattle.std.specs.Prelude.{◌≡◌, [], ◌∷◌, Some, None, is_some, true};
ghost use Rattle.pool_law.specs.declared.note.CacheNo.{CacheNo};
ghost use Rattle.pool_law.specs.declared.note.Did.TheVariants.{Hit, Miss, Kept, Back, Trim, Close, Shed, Handle, NoHandle, Home};
ghost use Rattle.pool_law.specs.Caches.{new_bin, bin_step};
ghost use Rattle.pool_law.specs.Histories.{after, cache_after};
ghost use Rattle.definition_rows.specs.CachePlays.{small, normal, kept_then, cache_of, holding};

/// A hit takes the front region, and a miss stands only where there is none.
pub fn front_of_a_cache()
    ensures hit { cache_of 4 3 (Hit (small 1) ∷ [])
        ≡ Some (holding (small 2 ∷ small 3 ∷ []) 1 0) }
    ensures not_the_second { cache_of 4 3 (Hit (small 2) ∷ []) ≡ None }
    ensures miss { cache_of 4 0 (Miss ∷ []) ≡ Some (holding [] 0 0) }
    ensures no_miss { cache_of 4 1 (Miss ∷ []) ≡ None }
    ensures no_hit { cache_of 4 0 (Hit (small 1) ∷ []) ≡ None }
{}

/// A trim leaves as many regions as were served, and its quota is shed before the next hit.
pub fn trimmed_cache()
    ensures trim { cache_of 4 3 (Hit (small 1) ∷ Trim 2 ∷ [])
        ≡ Some (holding (small 2 ∷ small 3 ∷ []) 0 2) }
    ensures capacity_less_hits { cache_of 3 3 (Hit (small 1) ∷ Kept (small 4) ∷ Trim 2 ∷ [])
        ≡ Some (holding (small 2 ∷ small 3 ∷ small 4 ∷ []) 0 2) }
    ensures no_other_quota { cache_of 4 3 (Hit (small 1) ∷ Trim 3 ∷ []) ≡ None }
    ensures sheds { cache_of 4 3 (Hit (small 1) ∷ Trim 2 ∷ Shed (small 2) ∷ Shed (small 3) ∷ [])
        ≡ Some (holding [] 0 0) }
    ensures no_hit_before { cache_of 4 3 (Hit (small 1) ∷ Trim 2 ∷ Hit (small 2) ∷ []) ≡ None }
    ensures no_trim_before { cache_of 4 3 (Trim 3 ∷ Trim 3 ∷ []) ≡ None }
    ensures kept_between { cache_of 4 2 (Trim 2 ∷ Kept (small 3) ∷ Shed (small 1) ∷ [])
        ≡ Some (holding (small 2 ∷ small 3 ∷ []) 0 1) }
    ensures not_past_the_quota { cache_of 4 1 (Shed (small 1) ∷ []) ≡ None }
{}

/// Hits count up to the capacity: a trim after as many sheds nothing, and then they count anew.
pub fn hits_to_the_capacity()
    ensures two { cache_of 2 2
        (Hit (small 1) ∷ Kept (small 3) ∷ Hit (small 2) ∷ Kept (small 4) ∷ Trim 0 ∷ [])
        ≡ Some (holding (small 3 ∷ small 4 ∷ []) 0 0) }
    ensures three { cache_of 2 2
        (Hit (small 1) ∷ Kept (small 3) ∷ Hit (small 2) ∷ Kept (small 4) ∷ Hit (small 3) ∷ Trim 0
        ∷ [])
        ≡ Some (holding (small 4 ∷ []) 0 0) }
    ensures anew { cache_of 2 1 (Hit (small 1) ∷ Trim 0 ∷ Kept (small 2) ∷ Trim 1 ∷ [])
        ≡ Some (holding (small 2 ∷ []) 0 1) }
{}

/// A full cache sends regions back: at 256 of a small class, and at 64 of the first normal one.
pub fn full_cache()
    ensures kept { is_some (cache_after 0 0 (kept_then small 1 256 [])) ≡ true }
    ensures not_kept { cache_after 0 0 (kept_then small 1 257 []) ≡ None }
    ensures back { is_some
        (cache_after 0 0 (kept_then small 1 256 (Back (small 257) CacheNo.Full ∷ []))) ≡ true }
    ensures not_before { cache_after 0 0
        (kept_then small 1 255 (Back (small 256) CacheNo.Full ∷ []))
        ≡ None }
    ensures normal { is_some
        (cache_after 0 39 (kept_then normal 1 64 (Back (normal 65) CacheNo.Full ∷ []))) ≡ true }
    ensures no_more_normal { cache_after 0 39 (kept_then normal 1 65 []) ≡ None }
    ensures not_closed { cache_of 1 1 (Back (small 2) CacheNo.Closed ∷ []) ≡ None }
{}

/// A closed cache sends regions back, full or not. It is closed once, and sheds all that it has.
pub fn closed_cache()
    ensures back { is_some
        (cache_of 2 1 (Close 1 ∷ Back (small 2) CacheNo.Closed ∷ Shed (small 1) ∷ [])) ≡ true }
    ensures not_full { cache_of 1 1 (Close 1 ∷ Back (small 2) CacheNo.Full ∷ []) ≡ None }
    ensures not_kept { cache_of 2 0 (Close 0 ∷ Kept (small 1) ∷ []) ≡ None }
    ensures all { cache_of 2 2 (Hit (small 1) ∷ Close 0 ∷ []) ≡ None }
    ensures once { cache_of 2 0 (Close 0 ∷ Close 0 ∷ []) ≡ None }
{}

/// A cache takes regions of its lane and its class alone.
pub fn own_cache()
    ensures own { is_some (cache_after 0 0 (Kept (small 1) ∷ [])) ≡ true }
    ensures another_lane { cache_after 1 0 (Kept (small 1) ∷ []) ≡ None }
    ensures another_class { cache_after 0 1 (Kept (small 1) ∷ []) ≡ None }
    ensures not_sent_back { cache_after 1 0 (Close 0 ∷ Back (small 1) CacheNo.Closed ∷ []) ≡ None }
{}

/// The bin of the third lane, with three handles.
pub fn bin_order()
    ensures new { new_bin 2 3 ≡ 6 ∷ 7 ∷ 8 ∷ [] }
    ensures all { after (bin_step 2 3) (new_bin 2 3)
        (Handle 6 ∷ Handle 7 ∷ Handle 8 ∷ NoHandle ∷ Home 7 ∷ Home 6 ∷ []) ≡ Some (7 ∷ 6 ∷ []) }
    ensures not_the_second { after (bin_step 2 3) (new_bin 2 3) (Handle 7 ∷ []) ≡ None }
    ensures not_empty { after (bin_step 2 3) (new_bin 2 3) (NoHandle ∷ []) ≡ None }
    ensures not_twice { after (bin_step 2 3) (new_bin 2 3) (Home 7 ∷ []) ≡ None }
    ensures not_of_another_lane { after (bin_step 2 3) (new_bin 2 3) (Handle 6 ∷ Home 5 ∷ [])
        ≡ None }
{}
