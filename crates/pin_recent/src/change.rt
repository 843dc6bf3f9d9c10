/// What changes the values of a map's pairs, one pair after another. It may keep a state from pair to pair.
pub trait Change<K, V> {
    /// In this state it may be asked for this pair.
    ghost accepts: { Self → K → V → Type 0 };

    /// Asked for this pair in this state, it may leave this value and this state.
    ghost changes: { Self → K → V → V → Self → Type 0 };

    /// Changes the value of a pair.
    fn change(&mut self, key: &K, value: &mut V)
        requires { accepts self.old key.now value.old }
        ensures { changes self.old key.now value.old value.new self.new };
}
