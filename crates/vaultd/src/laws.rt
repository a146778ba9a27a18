ghost use Rattle.vaultd.specs.Killed.{KilledVaultsAreSettled, SettledVaultsAreHeld, UnopenedVaultsAreSettled};

/// A kill, a restart and then a power cut: what a run that was killed left is an image of its log, so it recovers to a prefix of its history that
/// holds all that was synced. Settled at its loose paths it is what the next run's log begins with, and each power cut from then on leaves an image
/// of that. It does nothing.
pub fn a_killed_vault_is_settled()
    ensures served { KilledVaultsAreSettled }
    ensures unopened { UnopenedVaultsAreSettled }
    ensures settled { SettledVaultsAreHeld }
{}
