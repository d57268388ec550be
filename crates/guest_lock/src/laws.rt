//! Laws of what tokens are told, for callers: functions without a body, whose contracts are the laws.
ghost use Rattle.std.specs.Prelude.{◌≡◌, ◌≢◌, ℕ, ◌++◌, [], List};
ghost use Rattle.shootdown.specs.declared.notes.Note.{Note};
ghost use Rattle.shootdown.specs.Notes.{Token};
ghost use Rattle.guest_core.specs.Noting.{loaded_by};
ghost use Rattle.guest_lock.specs.declared.burst.Burst.{Burst};
ghost use Rattle.guest_lock.specs.declared.burst.Stop.TheVariants.{Paused};
ghost use Rattle.guest_lock.specs.Told.{with_told, shown, Bursts};
ghost use Rattle.guest_lock.specs.Counted.{none_made, joined, resumed};

/// What a token is told once, and once more, it is told at once. It changes what the token shows of that guest alone.
#[inline]
pub fn tokens_grow()
    ensures none { (token : Token) (g : ℕ) → with_told token g [] ≡ token }
    ensures more { (token : Token) (g : ℕ) (first next : List Note) → with_told (with_told token g first) g next ≡ with_told token g (first ++ next) }
    ensures own { (token : Token) (g : ℕ) (told : List Note) → shown g (with_told token g told) ≡ loaded_by (shown g token) told }
    ensures others { (token : Token) (g h : ℕ) (told : List Note) → h ≢ g → shown g (with_told token h told) ≡ shown g token }
{}

/// A burst that goes on and the next one are a burst. A burst unloads nothing, and one that waited was told nothing of it.
#[inline]
pub fn bursts_join()
    ensures none { (token : Token) (g : ℕ) → Bursts token g none_made token }
    ensures joined { (old mid new : Token) (g : ℕ) (first next : Burst) → first.stop ≡ Paused → Bursts old g first mid → Bursts mid g next new → Bursts old g (joined first next) new }
    ensures shown { (old new : Token) (g : ℕ) (burst : Burst) → Bursts old g burst new → shown g new ≡ shown g old }
    ensures waited { (old new : Token) (g : ℕ) (burst : Burst) → Bursts old g burst new → Bursts old g (resumed burst) new }
{}
