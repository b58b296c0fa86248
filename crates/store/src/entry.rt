// A key and its value.
#[derive(Clone, Copy, PartialEq, Eq, Debug)]
pub struct Entry<K, V> {
    pub key: K,
    pub value: V,
}
