//! What the jobs of a field tell.

ghost use Rattle.std.specs.Prelude.{ℕ, Option};
ghost use Rattle.oss_model.specs.Bodies.{Body};
ghost use Rattle.oss_roles.specs.Roles.{Site};

/// How jobs of the type `J` tell whose they are, for programs whose scripts are of the type `S`.
pub trait Jobs<S, J> {
    /// The job is that of the task with this number, with this body, and with these last children, one for each site
    /// at most.
    ghost is_job: { J → ℕ → Body S → (Site → Option ℕ) → Type 0 };
}
