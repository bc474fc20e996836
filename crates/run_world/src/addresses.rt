//! The addresses of a querier on the host.
ghost use Rattle.std.specs.Prelude.{◌≡◌, true};
ghost use Rattle.mcast_querier.specs.Queries.{is_host_four, is_link_local_six};

/// The addresses at which a querier asks, in each IP version.
#[derive(Clone, Copy)]
pub(crate) struct Addresses {
    pub(crate) four: u32,
    pub(crate) six: u128,
    ghost host: { is_host_four four ≡ true },
    ghost link_local: { is_link_local_six six ≡ true },
}
